// Numbers, alone and after their names.
ghost use Rattle.std.specs.Prelude.{◌≡◌, ◌≤◌, ◌+◌, ◌++◌, OnOk, IsOk, decimal, length, string_bytes, string_capacity};
ghost use Rattle.answers.specs.Line.{aligned};

use std::alloc::AllocError;

// One below ten, as most are, is its digit.
pub(crate) fn write_number(value: u64, out: &mut String) -> Result<(), AllocError>
    ensures text { OnOk result (string_bytes out.new ≡ string_bytes out.old ++ decimal value) }
    ensures room { OnOk result (length (string_bytes out.new) ≤ length (string_bytes out.old) + 20) }
    ensures succeeds { length (string_bytes out.old) + 20 ≤ string_capacity out.old → IsOk result }
    ensures capacity { string_capacity out.old ≤ string_capacity out.new }
{
    if value < 10 {
        return out.push(char::from(b'0' + value as u8));
    }
    out.push_str(itoa::Buffer::new().format(value))
}

// A number at the right of a column so wide; as long as it is where the column is too narrow.
pub fn write_aligned(value: u64, width: usize, out: &mut String) -> Result<(), AllocError>
    ensures text { OnOk result (string_bytes out.new ≡ string_bytes out.old ++ aligned width value) }
    ensures room { width ≤ 20 → OnOk result (length (string_bytes out.new) ≤ length (string_bytes out.old) + 20) }
    ensures succeeds { width ≤ 20 → length (string_bytes out.old) + 20 ≤ string_capacity out.old → IsOk result }
    ensures capacity { string_capacity out.old ≤ string_capacity out.new }
{
    let mut buffer = itoa::Buffer::new();
    let digits = buffer.format(value);
    for _ in digits.len()..width {
        out.push(' ')?;
    }
    out.push_str(digits)
}

pub(crate) fn write_value(name: &str, value: u64, out: &mut String) -> Result<(), AllocError>
    ensures text { OnOk result (string_bytes out.new ≡ string_bytes out.old ++ (name.now ++ decimal value)) }
    ensures room { OnOk result
        (length (string_bytes out.new) ≤ length (string_bytes out.old) + (length name.now + 20)) }
    ensures succeeds { length (string_bytes out.old) + (length name.now + 20) ≤ string_capacity out.old → IsOk result }
    ensures capacity { string_capacity out.old ≤ string_capacity out.new }
{
    out.push_str(name)?;
    write_number(value, out)
}

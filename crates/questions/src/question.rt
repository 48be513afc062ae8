// A question, its kind, and what may be at fault with a line.
ghost use Rattle.std.specs.Prelude.{◌≡◌};

#[derive(Clone, Copy, PartialEq, Eq)]
pub enum Kind {
    Up,
    Ack,
    Down,
    Control,
    Npbch,
    Sib1,
}

impl Kind {
    ghost use Rattle.questions.specs.Kind.{is_uplink, is_broadcast};

    pub(crate) fn of(word: &[u8]) -> Option<Kind> {
        match word {
            b"up" => Some(Kind::Up),
            b"ack" => Some(Kind::Ack),
            b"down" => Some(Kind::Down),
            b"control" => Some(Kind::Control),
            b"npbch" => Some(Kind::Npbch),
            b"sib1" => Some(Kind::Sib1),
            _ => None,
        }
    }

    pub fn is_uplink(self) -> bool
        ensures { result ≡ is_uplink self }
    {
        matches!(self, Kind::Up | Kind::Ack)
    }

    pub fn is_broadcast(self) -> bool
        ensures { result ≡ is_broadcast self }
    {
        matches!(self, Kind::Npbch | Kind::Sib1)
    }
}

#[derive(Clone, Copy, PartialEq, Eq)]
pub enum Question {
    Set,
    Cell,
    Bitmap,
    Cause,
    Count,
    Search,
    Fill,
    Element,
    Meaning,
    Plan(Kind),
    Forward(Kind),
    Backward(Kind),
    Step(Kind),
    Picture(Kind),
    Timeline(Kind),
}

impl Question {
    // The question that a word names, with the kind that the next word names, if that names one. Forward, backward and
    // a picture have the kinds of the broadcast too.
    pub(crate) fn of(word: &[u8], kind: Option<Kind>) -> Result<Question, Fault> {
        let any = kind.ok_or(Fault::Kind);
        let of_grant = kind.filter(|k| !k.is_broadcast()).ok_or(Fault::Kind);
        Ok(match word {
            b"plan" => Question::Plan(of_grant?),
            b"forward" => Question::Forward(any?),
            b"backward" => Question::Backward(any?),
            b"step" => Question::Step(of_grant?),
            b"picture" => Question::Picture(any?),
            b"timeline" => Question::Timeline(of_grant?),
            _ => {
                let question = Question::with_no_kind(word).ok_or(Fault::Question)?;
                if kind.is_some() {
                    return Err(Fault::Kind);
                }
                question
            }
        })
    }

    fn with_no_kind(word: &[u8]) -> Option<Question> {
        match word {
            b"set" => Some(Question::Set),
            b"cell" => Some(Question::Cell),
            b"bitmap" => Some(Question::Bitmap),
            b"cause" => Some(Question::Cause),
            b"count" => Some(Question::Count),
            b"search" => Some(Question::Search),
            b"fill" => Some(Question::Fill),
            b"element" => Some(Question::Element),
            b"meaning" => Some(Question::Meaning),
            _ => None,
        }
    }

    pub(crate) fn kind(self) -> Option<Kind> {
        match self {
            Question::Plan(kind)
            | Question::Forward(kind)
            | Question::Backward(kind)
            | Question::Step(kind)
            | Question::Picture(kind)
            | Question::Timeline(kind) => Some(kind),
            _ => None,
        }
    }
}

// What is at fault.
#[derive(Clone, Copy, PartialEq, Eq)]
pub enum Fault {
    Long,
    Question,
    Kind,
    Value,
    Name,
    Number,
    Hex,
    Size,
}

// That each answer is written where memory is left.
use super::*;
use std::test::Fail;

#[test]
fn one_line(rt: HostRuntime) -> Result<(), Fail> {
    let mut out = String::new(rt.alloc());
    write_fault(Fault::Name, 6, 4, &mut out)?;
    write_cell(24, &mut out)?;
    write_bitmap(0, &[0x0f, 0xa0], &mut out)?;
    let cause = Cause::Sib1;
    write_cause(CauseAnswer { no: 0, cause }, &mut out)?;
    write_count(ElementCount { no: 0, e: 152 }, &mut out)?;
    assert_eq!(rt;
        out.as_str(),
        "error=name line=6 word=4\nno=24\nno=0 part=0fa0\nno=0 cause=sib1\nno=0 e=152\n"
    );
    Ok(())
}

#[test]
fn grants(rt: HostRuntime) -> Result<(), Fail> {
    let mut out = String::new(rt.alloc());
    let plan = DownlinkPlan {
        no: 0,
        first: 21,
        last: 32,
        copies: 1,
        places: 1280,
    };
    write_downlink_plan(plan, &mut out)?;
    let place = UplinkPlace {
        no: 0,
        slot: 5,
        l: 2,
        k: 11,
        symbol: 7,
    };
    write_uplink_place(place, &mut out)?;
    assert_eq!(rt;
        out.as_str(),
        "no=0 first=21 last=32 copies=1 places=1280\nno=0 slot=5 l=2 k=11 symbol=7\n"
    );
    Ok(())
}

#[test]
fn lists(rt: HostRuntime) -> Result<(), Fail> {
    let mut out = String::new(rt.alloc());
    write_fill(0, &[42.0], &mut out)?;
    write_skipped(true, 5, Cause::Npss, &mut out)?;
    write_skipped(false, 9, Cause::Nsss, &mut out)?;
    write_unlisted(3, &mut out)?;
    let one = Candidate {
        first: 8,
        r: 1,
        last: 9,
    };
    let search = SearchAnswer {
        no: 0,
        start: 8,
        count: 1,
        list: [one; 15],
    };
    write_search(search, &mut out)?;
    assert_eq!(rt;
        out.as_str(),
        "no=0 42280000\n 5 npss, 9 nsss and 3 more\nno=0 start=8 count=1 8,1,9\n"
    );
    Ok(())
}

#[test]
fn told(rt: HostRuntime) -> Result<(), Fail> {
    let mut out = String::new(rt.alloc());
    write_help(Some(b"control"), &mut out)?;
    write_meaning(25, &mut out)?;
    write_meaning(26, &mut out)?;
    assert_eq!(rt;
        out.as_str(),
        "no=0
control    NPDCCH, by the cell and n r format ncce
control    control region: in-band 1 to 3 symbols, else 0; starts at 0
no=25 meaning=the broadcast of a non-anchor
no=26 meaning=none
"
    );
    Ok(())
}

#[test]
fn drawn(rt: HostRuntime) -> Result<(), Fail> {
    let mut out = String::new(rt.alloc());
    let shown = Shown {
        unit: 10251,
        subframe: 10251,
        i: 3,
        sent: 4,
        codeword: 2,
    };
    write_slot(shown, &mut out)?;
    write_unit(1, &mut out)?;
    write_tones(0, 11, &mut out)?;
    write_more(12, &mut out)?;
    assert_eq!(rt;
        out.as_str(),
        "slot 10251: from subframe 10251, frame 1, subframe 1 of it, i=3 of 4 transmitted, codeword slot 2, \
resource unit 1, tones 0 to 11
more frames: 12
"
    );
    Ok(())
}

#[test]
fn places(rt: HostRuntime) -> Result<(), Fail> {
    let mut out = String::new(rt.alloc());
    let plan = UplinkPlan {
        no: 0,
        first: 20,
        last: 35,
        copies: 2,
        places: 2304,
        size: 1152,
        order: 2,
    };
    write_uplink_plan(plan, &mut out)?;
    let place = DownlinkPlace {
        no: 0,
        t: 21,
        slot: 1,
        l: 3,
        k: 4,
        symbol: 5,
    };
    write_downlink_place(place, &mut out)?;
    let element = ElementNumbers {
        no: 0,
        state: 4,
        re: 1.0,
        im: -2.0,
    };
    write_element(element, &mut out)?;
    assert_eq!(rt;
        out.as_str(),
        "no=0 first=20 last=35 copies=2 places=2304 size=1152 order=2
no=0 t=21 slot=1 l=3 k=4 symbol=5
no=0 case=4 re=3f800000 im=c0000000
"
    );
    Ok(())
}

#[test]
fn steps(rt: HostRuntime) -> Result<(), Fail> {
    let mut out = String::new(rt.alloc());
    let back = Back {
        no: 0,
        ours: 1,
        symbol: 6,
        position: 7,
        kind: 0,
    };
    write_back(back, &mut out)?;
    let cause = Cause::Message;
    write_downlink_back(DownlinkBack { back, cause }, &mut out)?;
    let place = WalkPlace {
        no: 0,
        finished: 0,
        t: 21,
        slot: 1,
        l: 3,
        k: 4,
        symbol: 5,
    };
    write_uplink_step(place, 8, &mut out)?;
    write_downlink_step(place, 8, &mut out)?;
    assert_eq!(rt;
        out.as_str(),
        "no=0 ours=1 symbol=6 p=7 kind=0
no=0 ours=1 symbol=6 p=7 kind=0 cause=message
no=0 finished=0 slot=1 l=3 k=4 symbol=5 p=8
no=0 finished=0 t=21 slot=1 l=3 k=4 symbol=5 p=8
"
    );
    Ok(())
}

#[test]
fn columns(rt: HostRuntime) -> Result<(), Fail> {
    let mut out = String::new(rt.alloc());
    let shown = Shown {
        unit: 21,
        subframe: 21,
        i: 0,
        sent: 8,
        codeword: 0,
    };
    write_subframe(shown, &mut out)?;
    write_slot_columns(41, &mut out)?;
    assert_eq!(rt;
        out.as_str(),
        "subframe 21: frame 2, subframe 1 of it, i=0 of 8 transmitted, codeword subframe 0
o ours, N narrowband reference, C cell reference, # control region, . anything else
     slot 0  slot 1
   l 0123456 0123456
o data, R reference, . tone not granted
     slot 41
   l 0123456
"
    );
    Ok(())
}

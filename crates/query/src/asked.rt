// A grant of any kind, or a channel of the broadcast, and what is asked of it. Of an uplink grant a slot stands for the
// subframe.
use downlink::{DownlinkBack, DownlinkPlace, DownlinkPlan};
use questions::{Kind, Values};
use sending::Back;
use uplink::{UplinkPlace, UplinkPlan};
use walk::Engine;

// A place in a subframe; in a slot of the uplink `t` is the slot, and `slot` is 0.
#[derive(Clone, Copy)]
pub struct Place {
    pub t: u64,
    pub slot: u64,
    pub l: u64,
    pub k: u64,
}

// What is asked of: its kind, and the values that say the rest of it.
#[derive(Clone, Copy)]
pub struct Asked<'a> {
    pub kind: Kind,
    pub values: &'a Values,
}

// No From: both types are of other crates.
fn plan_of_slots(x: UplinkPlan) -> DownlinkPlan {
    DownlinkPlan {
        no: x.no,
        first: x.first,
        last: x.last,
        copies: x.copies,
        places: x.places,
    }
}

// No From, as above.
fn place_of_slots(x: UplinkPlace) -> DownlinkPlace {
    DownlinkPlace {
        no: x.no,
        t: x.slot,
        slot: 0,
        l: x.l,
        k: x.k,
        symbol: x.symbol,
    }
}

impl<'a> Asked<'a> {
    // Plan of an uplink grant; a kind of the downlink is taken as up.
    pub fn plan_slots(self) -> UplinkPlan {
        let v = self.values;
        match self.kind {
            Kind::Ack => nbiot::plan_ack_beside(v.harq_ack_grant(), v.windows()),
            _ => nbiot::plan_up_beside(v.npusch_grant(), v.windows()),
        }
    }

    // The slot that an uplink grant first names, which is the first where no windows are.
    pub fn first_named(self) -> u64 {
        let v = self.values;
        match self.kind {
            Kind::Ack => nbiot::plan_ack(v.harq_ack_grant()).first,
            _ => nbiot::plan_up(v.npusch_grant()).first,
        }
    }

    pub fn plan(self) -> DownlinkPlan {
        let v = self.values;
        match self.kind {
            Kind::Down => nbiot::plan_down(v.cell(), &v.anchor, &v.other, v.npdsch_grant()),
            Kind::Control => nbiot::plan_control(v.cell(), &v.anchor, &v.other, v.npdcch_grant()),
            _ => plan_of_slots(self.plan_slots()),
        }
    }

    // Forward of an uplink grant; a kind of the downlink is taken as up.
    pub fn forward_slots(self, engine: Engine, p: u64) -> UplinkPlace {
        let v = self.values;
        let ws = v.windows();
        match (self.kind, engine) {
            (Kind::Ack, Engine::Quick) => nbiot::forward_ack_beside(v.harq_ack_grant(), ws, p),
            (Kind::Ack, Engine::Plain) => nbiot::forward_ack_plain(v.harq_ack_grant(), ws, p),
            (_, Engine::Quick) => nbiot::forward_up_beside(v.npusch_grant(), ws, p),
            (_, Engine::Plain) => nbiot::forward_up_plain(v.npusch_grant(), ws, p),
        }
    }

    // The broadcast knows the quick engine alone.
    pub fn forward(self, engine: Engine, p: u64) -> DownlinkPlace {
        let v = self.values;
        let c = v.cell();
        match (self.kind, engine) {
            (Kind::Up | Kind::Ack, _) => place_of_slots(self.forward_slots(engine, p)),
            (Kind::Down, Engine::Quick) => {
                nbiot::forward_down(c, &v.anchor, &v.other, v.npdsch_grant(), p)
            }
            (Kind::Down, Engine::Plain) => {
                nbiot::forward_down_plain(c, &v.anchor, &v.other, v.npdsch_grant(), p)
            }
            (Kind::Control, Engine::Quick) => {
                nbiot::forward_control(c, &v.anchor, &v.other, v.npdcch_grant(), p)
            }
            (Kind::Control, Engine::Plain) => {
                nbiot::forward_control_plain(c, &v.anchor, &v.other, v.npdcch_grant(), p)
            }
            (Kind::Npbch, _) => nbiot::forward_npbch(c, &v.anchor, &v.other, p),
            (Kind::Sib1, _) => nbiot::forward_sib1(c, &v.anchor, &v.other, p),
        }
    }

    // Backward of a downlink grant; another kind is taken as down.
    pub fn backward(self, x: Place) -> DownlinkBack {
        let v = self.values;
        let c = v.cell();
        let Place { t, slot, l, k } = x;
        match self.kind {
            Kind::Control => {
                nbiot::backward_control(c, &v.anchor, &v.other, v.npdcch_grant(), t, slot, l, k)
            }
            _ => nbiot::backward_down(c, &v.anchor, &v.other, v.npdsch_grant(), t, slot, l, k),
        }
    }

    // What stands at a place, whichever kind; of a downlink grant without the cause.
    pub fn standing(self, x: Place) -> Back {
        let v = self.values;
        let c = v.cell();
        let Place { t, slot, l, k } = x;
        match self.kind {
            Kind::Up => nbiot::backward_up_beside(v.npusch_grant(), v.windows(), t, l, k),
            Kind::Ack => nbiot::backward_ack_beside(v.harq_ack_grant(), v.windows(), t, l, k),
            Kind::Down | Kind::Control => self.backward(x).back,
            Kind::Npbch => nbiot::backward_npbch(c, &v.anchor, &v.other, t, slot, l, k),
            Kind::Sib1 => nbiot::backward_sib1(c, &v.anchor, &v.other, t, slot, l, k),
        }
    }
}

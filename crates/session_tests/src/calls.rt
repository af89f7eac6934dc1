// Calls of a client.

ghost use Rattle.spec_core.specs.Theories.{Theory};
ghost use Rattle.session.specs.JobValues.{GivesValues};

use rule_model::offer::{Fields, Offer};
use rule_model::reply::Reply;
use run_settings::settings::{Draw, Settings};
use session::calls::CallFault;
use session::session::Session;
use spec_core::items::Gate;
use std::alloc::Global;
use test_programs::over_small_data;

const SETTINGS: Settings = Settings {
    budget: 100,
    values: 3,
    steps: 1000,
    seed: 0,
    draw: Draw::Rotation,
};

// An offer at a gate, without fields.
fn at(alloc: Global, gate: u32) -> Offer
    ensures { (theory : Theory) → GivesValues theory result }
{
    Offer {
        gate: Gate(gate),
        fields: Fields::new(Vec::new(alloc)),
    }
}

#[test]
fn a_client_that_has_left_makes_no_call(rt: HostRuntime) {
    let alloc: Global = rt.alloc();
    let checked = over_small_data(alloc, "noexit", "a; b; stop")
        .expect(&rt, "memory")
        .expect(&rt, "accepted");
    let (session, mut passes, _workers) = Session::start(alloc, checked, SETTINGS, 1, 0).expect(
        &rt, "memory",
    );
    let mut pass = passes.pop().expect(&rt, "a pass");
    let offer = at(alloc, 0);
    let reply = session
        .offer(&rt, &mut pass, &offer)
        .expect(&rt, "no fault");
    assert!(rt; matches!(reply, Reply::Taken { at: 0, .. }));
    let reply = session.ask(&rt, &mut pass, &offer).expect(&rt, "no fault");
    assert!(rt; matches!(reply, Reply::NotNow { at: 1 }));
    let none = at(alloc, 7);
    assert!(rt;
        matches!(
            session.offer(&rt, &mut pass, &none),
            Err(CallFault::NoSuchGate)
        )
    );
    session.leave(&rt, &mut pass).expect(&rt, "no fault");
    assert!(rt; matches!(session.leave(&rt, &mut pass), Err(CallFault::Left)));
    assert!(rt; matches!(session.offer(&rt, &mut pass, &offer), Err(CallFault::Left)));
    assert!(rt; matches!(session.ask(&rt, &mut pass, &none), Err(CallFault::Left)));
}

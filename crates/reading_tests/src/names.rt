// Questions to the names reading: every refusal and which comes first, lawful and unlawful strings,
// and the strings that were worked out by hand.
ghost use Rattle.reading.specs.WorkedNames.{Works};

use crate::names::Outcome::{Granted, Refused};
use reading::names::Names;
use reading::{MAX_METER, Reading};
use syntax::argument::Argument;
use syntax::fault::Fault;
use syntax::fault::Fault::{MeterFull, Misfit, ShortBuffer, Unlawful};
use syntax::kind::Kind;
use syntax::name::Name;

const X: Argument = Argument::Name(Name([120, 0, 0, 0]));

// What a question comes to.
#[derive(Clone, Copy, Debug, PartialEq, Eq)]
enum Outcome {
    Granted,
    // Refused, with the meter and the buffer as they were.
    Refused(Fault),
    // Refused, but something changed; or it could not be put at all.
    Spoiled,
}

fn put(start: u32, kind: Kind, argument: Argument, parts: &[&[u8]], room: usize) -> Outcome {
    let Ok(mut names) = Names::new(start) else {
        return Outcome::Spoiled;
    };
    let mut out = [7u8; 256];
    if room > out.len() {
        return Outcome::Spoiled;
    }
    let before = out;
    match names.ask(kind, argument, parts, &mut out[0..room]) {
        Ok(_) => Granted,
        Err(fault) if names.meter() == start && out == before => Refused(fault),
        Err(_) => Outcome::Spoiled,
    }
}

fn leaf(start: u32, kind: Kind, argument: Argument, room: usize) -> Outcome {
    let parts: [&[u8]; 1] = [b"\x03\x00"];
    put(start, kind, argument, &parts[0..0], room)
}

fn one(start: u32, kind: Kind, argument: Argument, part: &[u8], room: usize) -> Outcome {
    let parts: [&[u8]; 1] = [part];
    put(start, kind, argument, &parts, room)
}

// Each fault alone, and with those that come after it.
#[test]
fn refusals(rt: HostRuntime) {
    assert_eq!(rt; leaf(0, Kind::Var, X, 254), Granted);
    assert_eq!(rt; leaf(0, Kind::Var, X, 255), Granted);
    assert_eq!(rt; leaf(MAX_METER - 1, Kind::Var, X, 254), Granted);
    assert_eq!(rt; leaf(0, Kind::Var, Argument::Nothing, 254), Refused(Misfit));
    assert_eq!(rt; leaf(0, Kind::Hole, X, 254), Refused(Misfit));
    assert_eq!(rt;
        leaf(0, Kind::Var, Argument::Name(Name([120, 0, 120, 0])), 254),
        Refused(Misfit)
    );
    assert_eq!(rt;
        leaf(0, Kind::Num, Argument::Number(1_000_000), 254),
        Refused(Misfit)
    );
    assert_eq!(rt;
        one(MAX_METER, Kind::Lam, Argument::Nothing, b"\x05", 0),
        Refused(Misfit)
    );
    assert_eq!(rt; leaf(MAX_METER, Kind::Var, X, 254), Refused(MeterFull));
    assert_eq!(rt;
        one(MAX_METER, Kind::Lam, X, b"\x05", 0),
        Refused(MeterFull)
    );
    assert_eq!(rt; leaf(0, Kind::Var, X, 253), Refused(ShortBuffer));
    assert_eq!(rt; leaf(0, Kind::Var, X, 0), Refused(ShortBuffer));
    assert_eq!(rt; one(0, Kind::Lam, X, b"\x05", 253), Refused(ShortBuffer));
    assert_eq!(rt; one(0, Kind::Lam, X, b"\x05", 254), Refused(Unlawful));
    assert_eq!(rt; leaf(0, Kind::Lam, X, 254), Refused(Unlawful));
    assert_eq!(rt; one(0, Kind::Var, X, b"\x03\x00", 255), Refused(Unlawful));
    assert_eq!(rt;
        one(0, Kind::App, Argument::Nothing, b"\x03\x00", 254),
        Refused(Unlawful)
    );
}

fn is_lawful(text: &[u8]) -> bool {
    match Names::new(0) {
        Ok(names) => names.lawful(text),
        Err(_) => false,
    }
}

#[test]
fn strings(rt: HostRuntime) {
    assert!(rt; is_lawful(b"\x04"));
    assert!(rt; is_lawful(b"\x03\x00"));
    assert!(rt; is_lawful(b"\x03\x01abcd"));
    assert!(rt; is_lawful(b"\x03\x02a\x00\x00\x00aa\x00\x00"));
    assert!(rt; !is_lawful(b""));
    assert!(rt; !is_lawful(b"\x03"));
    assert!(rt; !is_lawful(b"\x05\x00"));
    assert!(rt; !is_lawful(b"\x04\x00"));
    assert!(rt; !is_lawful(b"\x03\x00\x00"));
    assert!(rt; !is_lawful(b"\x03\x02abcd"));
    assert!(rt; !is_lawful(b"\x03\x02b\x00\x00\x00a\x00\x00\x00"));
    assert!(rt; !is_lawful(b"\x03\x02a\x00\x00\x00a\x00\x00\x00"));
    assert!(rt; !is_lawful(b"\x03\x01a\x00a\x00"));
    assert!(rt; !is_lawful(b"\x03\x01\x00\x00\x00\x00"));
    assert!(rt; !is_lawful(b"\x03\x01Abcd"));
    assert!(rt; !is_lawful(b"\x03\x81\x00abcd"));
    assert!(rt; !is_lawful(b"\x03\x01abcde"));
}

#[test]
fn starts(rt: HostRuntime) {
    assert!(rt; Names::new(MAX_METER).is_ok());
    assert!(rt; Names::new(MAX_METER + 1).is_err());
    assert!(rt; Names::new(u32::MAX).is_err());
}

// The definitions give the strings that were worked out by hand.
fn definitions_work() -> bool
    ensures { Works }
{
    true
}

#[test]
fn worked(rt: HostRuntime) {
    assert!(rt; definitions_work());
}

// A configuration, and one that repeats a symbol.
use configuration::config::{Config, StartRefusal};
use configuration::instrument::Instrument;
use configuration::participant::Participant;
use std::test::Fail;

#[test]
fn configured(rt: HostRuntime) -> Result<(), Fail> {
    let first = Participant::new(b"ALPHA", b"", 1, true)
        .ok()
        .ok_or("refused")?;
    let vod = Instrument::new(b"VOD", b"SET1", 3).ok().ok_or("refused")?;
    let config = Config::new(rt.alloc(), &[first], &[vod])
        .ok()
        .ok_or("refused")?;
    assert_eq!(rt; config.participants.len(), 1);
    let twice = Config::new(rt.alloc(), &[first], &[vod, vod]).err();
    assert!(rt; twice == Some(StartRefusal::BadConfiguration));
    Ok(())
}

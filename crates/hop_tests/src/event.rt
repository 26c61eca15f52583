//! A history by hand.
use hop_base::Part;
use hop_event::{Event, History, Via};
use std::test::Fail;

#[test]
fn grows_at_its_end(rt: HostRuntime) -> Result<(), Fail> {
    let part = Part {
        split: 0,
        attempt: 1,
        from: 0,
        to: 2,
    };
    let arrived = Event::Arrive {
        part,
        via: Via::Lane(3),
    };
    let mut history = History::new(rt.alloc())?;
    assert_eq!(rt; history.len(), 0);
    history.reserve()?;
    history.push(arrived);
    history.reserve()?;
    history.push(Event::Restart);
    assert_eq!(rt; history.events(), [arrived, Event::Restart].as_slice());
    assert_eq!(rt; history.len(), 2);
    Ok(())
}

// One run of a drill: a script is played up to a call, the cable is cut there, and both ends recover.
use crate::script::Script;
use crate::silent::Silent;
use bench_account::cut::Cut;
use bench_play::failure::Failure;
use bench_play::play::Play;
use bench_words::command::Cable;
use std::alloc::{AllocError, Global};

// Copies of the messages that are under way.
fn copied(heap: Global, messages: &[Vec<u8>]) -> Result<Vec<Vec<u8>>, AllocError> {
    let mut copies = Vec::new(heap);
    for message in messages {
        copies.push(Vec::from_slice(heap, message)?)?;
    }
    Ok(copies)
}

// The line is up again. What was under way comes late, before the downloads and once more behind them.
fn recover(rt: &(Silent, Global), play: &mut Play, late: &[Vec<u8>]) -> Result<(), Failure> {
    play.act(rt, Cable::Reconnect)?;
    if !play.is_up() {
        return Ok(());
    }
    play.late(rt, late)?;
    play.act(rt, Cable::CatchUp)?;
    play.late(rt, late)?;
    Ok(())
}

fn cut<'a>(
    heap: Global,
    play: &mut Play,
    script: &'a Script,
    number: usize,
    place: usize,
) -> Result<Cut<'a>, Failure> {
    let rt = (Silent, heap);
    for line in script.until(place) {
        play.line(&rt, line)?;
    }
    let late = copied(heap, play.state.under_way.live.under_way())?;
    let recovered = play.state.under_way.recovered.under_way().len();
    play.count_anew();
    play.act(&rt, Cable::Pull)?;
    recover(&rt, play, &late)?;
    let (orders, verdict) = play.verdict(heap)?;
    let came = play.state.came;
    Ok(Cut {
        number,
        line: place.saturating_add(1),
        after: script.text(place),
        live: late.len(),
        recovered,
        held: came.held,
        folded: came.folded,
        again: came.again,
        orders,
        verdict,
    })
}

/// Plays a script anew up to a place, cuts the cable behind it, and has both ends recover.
pub fn run<'a>(
    heap: Global,
    script: &'a Script,
    number: usize,
    place: usize,
) -> Result<Cut<'a>, Failure> {
    let mut play = Play::new(heap);
    let outcome = cut(heap, &mut play, script, number, place);
    play.close();
    outcome
}

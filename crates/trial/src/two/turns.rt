// Turns: an automaton drawn at random, tours over list cards and over column cards, and walks over changed tables.
use crate::altered::altered;
use crate::counts::add;
use crate::findings::Subject;
use crate::parts::Parts;
use crate::streams::{drawn_piece, drawn_slots};
use crate::trial::Trial;
use crate::two::altering::{pairs_altered, reclassed};
use crate::two::instances::Instance;
use crate::two::stepping::step_through;
use crate::two::touring::{STALE, make_tour};
use crate::two::variety::{hubbed_machine, varied_machine};
use card::list::ListCard;
use card::rules::Card;
use column::columns::ColumnCard;
use pair_walk::walk::walk;
use pairs::list::PairCard;
use pairs::pair::PairEntry;
use std::alloc::{AllocError, Global};
use ternary::entry::Entry;
use ternary::refusal::Refusal;
use ternary::words::{StateCode, StateNo};

// How many walks over changed tables there are in a turn.
const WALKS: usize = 8;

// One turn: an automaton, its images, tours, and walks over changed tables.
pub fn try_turn(trial: &mut Trial) -> Result<(), AllocError> {
    let machine = varied_machine(trial.heap, &mut trial.random)?;
    add(&mut trial.findings.tallies.automata, 1);
    let Some(instance) = Instance::of(trial, machine)? else {
        return Ok(());
    };
    tour_lists(trial, &instance)?;
    tour_columns(trial, &instance)?;
    for _ in 0..WALKS {
        try_walk(trial, &instance)?;
    }
    match instance.changed(trial)? {
        Some(changed) => tour_lists(trial, &changed),
        None => Ok(()),
    }
}

// A turn with many states.
pub fn try_large_turn(trial: &mut Trial, states: u16) -> Result<(), AllocError> {
    let machine = hubbed_machine(trial.heap, &mut trial.random, states)?;
    add(&mut trial.findings.tallies.automata, 1);
    match Instance::of(trial, machine)? {
        Some(instance) => tour_lists(trial, &instance),
        None => Ok(()),
    }
}

// Places of a two-byte list card.
fn pair_places(heap: Global, count: usize) -> Result<Vec<PairEntry>, AllocError> {
    vec![in heap; PairEntry::default(); count]
}

// Places of a one-byte list card.
fn places(heap: Global, count: usize) -> Result<Vec<Entry>, AllocError> {
    vec![in heap; Entry::default(); count]
}

// A tour over list cards.
fn tour_lists(trial: &mut Trial, instance: &Instance) -> Result<(), AllocError> {
    let mut two = pair_places(trial.heap, instance.two_capacity)?;
    let mut one = places(trial.heap, instance.one_capacity)?;
    let mut other = places(trial.heap, instance.one_capacity)?;
    make_tour(
        trial,
        instance,
        two.as_mut_slice(),
        ListCard::new(one.as_mut_slice()),
        ListCard::new(other.as_mut_slice()),
    )
}

// A tour over a two-byte list card and a column card.
fn tour_columns(trial: &mut Trial, instance: &Instance) -> Result<(), AllocError> {
    let mut two = pair_places(trial.heap, instance.two_capacity)?;
    let blocks = instance.one_capacity.div_ceil(64);
    let mut words = vec![in trial.heap; u64::MAX; blocks.saturating_mul(48)]?;
    let mut decisions = vec![in trial.heap; (StateCode(999), 99); instance.one_capacity]?;
    let mut other = places(trial.heap, instance.one_capacity)?;
    make_tour(
        trial,
        instance,
        two.as_mut_slice(),
        ColumnCard::new(words.as_mut_slice(), decisions.as_mut_slice()),
        ListCard::new(other.as_mut_slice()),
    )
}

// The one-byte table of an instance with one change, or with classes of no meaning, so that a first byte whose second has no slot
// has a mark itself.
fn drawn_one(trial: &mut Trial, instance: &Instance) -> Result<Parts, AllocError> {
    if trial.random.one_in(2) {
        altered(&mut trial.random, &instance.one)
    } else {
        reclassed(&mut trial.random, &instance.one)
    }
}

// A walk over tables of which one or both are changed, from the code of any state.
fn try_walk(trial: &mut Trial, instance: &Instance) -> Result<(), AllocError> {
    let two = pairs_altered(&mut trial.random, &instance.two)?;
    let one = drawn_one(trial, instance)?;
    let mut pair_places = pair_places(trial.heap, two.entries.len())?;
    let mut places = places(trial.heap, one.entries.len())?;
    let mut pairs = PairCard::new(pair_places.as_mut_slice());
    let mut card = ListCard::new(places.as_mut_slice());
    for entry in two.entries.iter() {
        let appended = pairs.append(*entry);
        trial.expect(Subject::PairCard, appended == Ok(()))?;
    }
    for entry in one.entries.iter() {
        let appended = card.append(*entry);
        trial.expect(Subject::PairCard, appended == Ok(()))?;
    }
    let more = pairs.append(PairEntry::default());
    trial.expect(Subject::PairCard, more == Err(Refusal::CardFull))?;
    let StateNo(state) = trial.random.state(instance.machine.automaton().states);
    let code = instance.code(StateNo(state));
    let piece = drawn_piece(trial.heap, &mut trial.random)?;
    let slots = drawn_slots(&mut trial.random, piece.len());
    let mut marks = vec![in trial.heap; STALE; slots]?;
    let answer = walk(&pairs, &card, code, piece.as_slice(), marks.as_mut_slice());
    let mut steps = step_through(
        trial.heap,
        two.entries.as_slice(),
        one.entries.as_slice(),
        code,
        piece.as_slice(),
        slots,
    )?;
    add(&mut trial.findings.tallies.walks, 1);
    if answer.is_err() {
        add(&mut trial.findings.tallies.unfinished, 1);
    }
    trial.expect(Subject::PairWalk, answer == steps.answer)?;
    steps.marks.resize(slots, STALE)?;
    trial.expect(
        Subject::PairWalkMarks,
        marks.as_slice() == steps.marks.as_slice(),
    )
}

// Rounds: an automaton drawn at random, and journeys over cards of each make.
use crate::cases::Case;
use crate::counts::add;
use crate::depot::serve;
use crate::journey::{refuse_small_card, travel};
use crate::kinds::drawn_machine;
use crate::trial::Trial;
use card::list::ListCard;
use card::tandem::Tandem;
use column::columns::ColumnCard;
use std::alloc::{AllocError, Global};
use ternary::entry::Entry;
use ternary::words::StateCode;

// The words of a block of 64 entries on a column card.
const BLOCK: usize = 48;

// One round: an automaton, its image, and its journeys; and one more with a changed table, if that carries it too.
pub fn try_round(trial: &mut Trial) -> Result<(), AllocError> {
    add(&mut trial.findings.counts.automata, 1);
    let machine = drawn_machine(trial.heap, &mut trial.random)?;
    let Some(case) = Case::of(trial, machine)? else {
        return Ok(());
    };
    let cut = trial.random.below(case.capacity.saturating_add(1));
    let rest = case.capacity.saturating_sub(cut);
    try_small(trial, &case)?;
    try_list(trial, &case)?;
    try_column(trial, &case)?;
    try_list_and_column(trial, &case, cut, rest)?;
    try_column_and_list(trial, &case, cut, rest)?;
    try_three(trial, &case, cut, rest)?;
    if let Some(changed) = case.changed(trial)? {
        try_list(trial, &changed)?;
    }
    serve_list(trial, &case)?;
    serve_column(trial, &case)?;
    serve_list_and_column(trial, &case, cut, rest)
}

// Places of a list card.
fn places(heap: Global, count: usize) -> Result<Vec<Entry>, AllocError> {
    vec![in heap; Entry::new(0, 0, 0, 0, StateCode(999), 99); count]
}

// Words of a column card that suffice for so many entries.
fn words(heap: Global, count: usize) -> Result<Vec<u64>, AllocError> {
    let blocks = count.div_ceil(64);
    vec![in heap; u64::MAX; blocks.saturating_mul(BLOCK)]
}

// Decisions of a column card.
fn decisions(heap: Global, count: usize) -> Result<Vec<(StateCode, u8)>, AllocError> {
    vec![in heap; (StateCode(999), 99); count]
}

// A list card with one place less than the image has entries.
fn try_small(trial: &mut Trial, case: &Case) -> Result<(), AllocError> {
    let Some(count) = case.parts.entries.len().checked_sub(1) else {
        return Ok(());
    };
    let mut places = places(trial.heap, count)?;
    refuse_small_card(trial, case, ListCard::new(places.as_mut_slice()))
}

// A list card.
fn try_list(trial: &mut Trial, case: &Case) -> Result<(), AllocError> {
    let mut places = places(trial.heap, case.capacity)?;
    travel(trial, case, ListCard::new(places.as_mut_slice()))
}

// A column card.
fn try_column(trial: &mut Trial, case: &Case) -> Result<(), AllocError> {
    let mut words = words(trial.heap, case.capacity)?;
    let mut decisions = decisions(trial.heap, case.capacity)?;
    let card = ColumnCard::new(words.as_mut_slice(), decisions.as_mut_slice());
    travel(trial, case, card)
}

// A tandem of a list card and a column card.
fn try_list_and_column(
    trial: &mut Trial,
    case: &Case,
    first: usize,
    second: usize,
) -> Result<(), AllocError> {
    let mut places = places(trial.heap, first)?;
    let mut words = words(trial.heap, second)?;
    let mut decisions = decisions(trial.heap, second)?;
    let list = ListCard::new(places.as_mut_slice());
    let column = ColumnCard::new(words.as_mut_slice(), decisions.as_mut_slice());
    travel(trial, case, Tandem::new(list, column))
}

// A tandem of a column card and a list card.
fn try_column_and_list(
    trial: &mut Trial,
    case: &Case,
    first: usize,
    second: usize,
) -> Result<(), AllocError> {
    let mut words = words(trial.heap, first)?;
    let mut decisions = decisions(trial.heap, first)?;
    let mut places = places(trial.heap, second)?;
    let column = ColumnCard::new(words.as_mut_slice(), decisions.as_mut_slice());
    let list = ListCard::new(places.as_mut_slice());
    travel(trial, case, Tandem::new(column, list))
}

// A tandem of a list card and such a tandem.
fn try_three(trial: &mut Trial, case: &Case, first: usize, rest: usize) -> Result<(), AllocError> {
    let second = trial.random.below(rest.saturating_add(1));
    let third = rest.saturating_sub(second);
    let mut first_places = places(trial.heap, first)?;
    let mut places = places(trial.heap, second)?;
    let mut words = words(trial.heap, third)?;
    let mut decisions = decisions(trial.heap, third)?;
    let column = ColumnCard::new(words.as_mut_slice(), decisions.as_mut_slice());
    let inner = Tandem::new(ListCard::new(places.as_mut_slice()), column);
    let list = ListCard::new(first_places.as_mut_slice());
    travel(trial, case, Tandem::new(list, inner))
}

// Coaches served over a list card.
fn serve_list(trial: &mut Trial, case: &Case) -> Result<(), AllocError> {
    let mut places = places(trial.heap, case.capacity)?;
    serve(trial, case, ListCard::new(places.as_mut_slice()))
}

// Coaches served over a column card.
fn serve_column(trial: &mut Trial, case: &Case) -> Result<(), AllocError> {
    let mut words = words(trial.heap, case.capacity)?;
    let mut decisions = decisions(trial.heap, case.capacity)?;
    let card = ColumnCard::new(words.as_mut_slice(), decisions.as_mut_slice());
    serve(trial, case, card)
}

// Coaches served over a tandem of a list card and a column card.
fn serve_list_and_column(
    trial: &mut Trial,
    case: &Case,
    first: usize,
    second: usize,
) -> Result<(), AllocError> {
    let mut places = places(trial.heap, first)?;
    let mut words = words(trial.heap, second)?;
    let mut decisions = decisions(trial.heap, second)?;
    let list = ListCard::new(places.as_mut_slice());
    let column = ColumnCard::new(words.as_mut_slice(), decisions.as_mut_slice());
    serve(trial, case, Tandem::new(list, column))
}

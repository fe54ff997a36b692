// Searches in a card, many of them.
ghost use Rattle.std.specs.Prelude.{◌≡◌, ◌≤◌, [], length};
ghost use Rattle.image.specs.Calls.{parts_of};
ghost use Rattle.measured.specs.Searches.{found, searched, search_round, search_rounds, search_answer};

use card::list::ListCard;
use card::rules::Card;
use column::columns::ColumnCard;
use image::reader::{Image, unpack};
use ternary::entry::Entry;
use ternary::words::{MOST_ENTRIES, StateCode};

// What is searched for.
#[repr(C)]
#[derive(Clone, Copy)]
pub struct Key {
    pub code: u16,
    pub byte: u8,
}

// A number for what a search found.
fn number(answer: Option<(StateCode, u8)>) -> u64
    ensures { result ≡ found answer }
{
    match answer {
        Some((code, class)) => 1 + 256 * code.0 as u64 + class as u64,
        None => 0,
    }
}

// A sum over what was found so far and what a search finds now.
fn search<C: Card>(card: &C, sum: u64, key: &Key) -> u64
    ensures { result ≡ searched (C.entries card.now) sum key.now }
{
    let answer = card.search(StateCode(key.code), key.byte);
    sum.wrapping_mul(31).wrapping_add(number(answer))
}

// Searches for each key once.
fn round<C: Card>(card: &C, keys: &[Key], sum: u64) -> u64
    ensures { result ≡ search_round (C.entries card.now) keys.now sum }
{
    keys.iter().fold(sum, |sum, key| search(card, sum, key))
}

// Searches for each key, in so many rounds.
fn rounds<C: Card>(card: &C, keys: &[Key], rounds: u32) -> u64
    ensures { result ≡ search_rounds (C.entries card.now) keys.now rounds }
{
    let mut sum = 0;
    for _round in 0..rounds {
        sum = round(card, keys, sum);
    }
    sum
}

// Puts the entries of an image on a card, behind those that are there.
fn fill<C: Card>(card: &mut C, image: Image<'_>)
    requires none { C.entries card.old ≡ [] }
    requires few { length (parts_of image).entries ≤ 4096 }
    requires room { length (parts_of image).entries ≤ C.free card.old }
    ensures { C.entries card.new ≡ (parts_of image.entry).entries }
{
    for e in image.entries() {
        let _ = card.append(e);
    }
}

// Searches in a list card with an image's entries. Of bytes that are no image the answer is 0.
#[unsafe(no_mangle)]
pub extern "C" fn measured_list_search(image: &[u8], keys: &[Key], count: u32) -> u64
    ensures { result ≡ search_answer image.now keys.now count }
{
    let Ok(image) = unpack(image) else {
        return 0;
    };
    let mut buffer = [Entry::default(); MOST_ENTRIES];
    let mut card = ListCard::new(&mut buffer);
    fill(&mut card, image);
    rounds(&card, keys, count)
}

// Searches in a column card with an image's entries. Of bytes that are no image the answer is 0.
#[unsafe(no_mangle)]
pub extern "C" fn measured_column_search(image: &[u8], keys: &[Key], count: u32) -> u64
    ensures { result ≡ search_answer image.now keys.now count }
{
    let Ok(image) = unpack(image) else {
        return 0;
    };
    let mut words = [0; 48 * 64];
    let mut decisions = [(StateCode(0), 0); MOST_ENTRIES];
    let mut card = ColumnCard::new(&mut words, &mut decisions);
    fill(&mut card, image);
    rounds(&card, keys, count)
}

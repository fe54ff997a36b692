// How much was tried of what takes two bytes in a search.
use crate::counts::add;
use std::fmt;
use ternary::refusal::Refusal;
use ternary::words::Progress;

// How often a load was refused, by the number of the refusal, and 12 by the image that it is told of.
#[derive(Clone, Copy, PartialEq, Eq, Default, Debug)]
pub struct Refused {
    pub automaton: u64,
    pub small: u64,
    pub malformed: u64,
    pub mismatched: u64,
    pub wrong_pair: u64,
    pub wrong_entry: u64,
    pub codes: u64,
}

impl Refused {
    // Counts a refusal of a load.
    pub fn count(&mut self, why: Refusal) {
        let count = match why {
            Refusal::BadAutomaton => &mut self.automaton,
            Refusal::CardTooSmall => &mut self.small,
            Refusal::Malformed(_) => &mut self.malformed,
            Refusal::Mismatch => &mut self.mismatched,
            Refusal::WrongPair(_, _, _) => &mut self.wrong_pair,
            Refusal::WrongEntry(_, _) => &mut self.wrong_entry,
            _ => &mut self.codes,
        };
        add(count, 1);
    }
}

// How many things of each sort were tried. They say how much that was, and prove nothing.
#[derive(Clone, Copy, PartialEq, Eq, Default, Debug)]
pub struct Tallies {
    pub automata: u64,
    pub refused_builds: u64,
    pub images: u64,
    pub unrolled: u64,
    pub loads: u64,
    pub refused: Refused,
    pub feeds: u64,
    pub bytes: u64,
    pub searches: u64,
    pub marks: u64,
    pub walks: u64,
    pub unfinished: u64,
}

impl Tallies {
    // Counts a feed and what it answered.
    pub fn count_feed(&mut self, progress: Progress) {
        add(&mut self.feeds, 1);
        add(&mut self.bytes, progress.taken);
        add(&mut self.searches, progress.searches);
        add(&mut self.marks, progress.marks);
    }
}

// As they are printed, in four lines.
impl fmt::Display for Tallies {
    fn fmt<W: fmt::Write>(&self, f: &mut fmt::Formatter<W>) -> fmt::Result {
        let automata = self.automata;
        let refused_builds = self.refused_builds;
        let images = self.images;
        let unrolled = self.unrolled;
        writeln!(
            f,
            "two bytes: {automata} automata, {refused_builds} refused builds, {images} images, {unrolled} roots unrolled"
        )?;
        let loads = self.loads;
        let refused = self.refused;
        writeln!(f, "two bytes: {loads} loads, {refused}")?;
        let feeds = self.feeds;
        let bytes = self.bytes;
        let searches = self.searches;
        let marks = self.marks;
        writeln!(
            f,
            "two bytes: {feeds} feeds, {bytes} bytes, {searches} searches, {marks} marks"
        )?;
        let walks = self.walks;
        let unfinished = self.unfinished;
        write!(
            f,
            "two bytes: {walks} walks over other tables, {unfinished} met no entry"
        )
    }
}

// As they are printed behind the loads.
impl fmt::Display for Refused {
    fn fmt<W: fmt::Write>(&self, f: &mut fmt::Formatter<W>) -> fmt::Result {
        let automaton = self.automaton;
        let small = self.small;
        let malformed = self.malformed;
        let mismatched = self.mismatched;
        let wrong_pair = self.wrong_pair;
        let wrong_entry = self.wrong_entry;
        let codes = self.codes;
        write!(
            f,
            "refused by 1: {automaton}, 6: {small}, 10: {malformed}, 11: {mismatched}, "
        )?;
        write!(
            f,
            "12: {wrong_pair} with two bytes and {wrong_entry} with one, 22: {codes}"
        )
    }
}

// How much was tried.
use std::fmt;

// How many things of each sort were tried. They say how much that was, and prove nothing.
#[derive(Clone, Copy, PartialEq, Eq, Default, Debug)]
pub struct Counts {
    pub figures: u64,
    pub automata: u64,
    pub refused_builds: u64,
    pub images: u64,
    pub loads: u64,
    pub feeds: u64,
    pub bytes: u64,
    pub marks: u64,
    pub restarts: u64,
    pub refused_calls: u64,
    pub depot: DepotCounts,
}

// How many calls of gateways were tried, and how many bytes their coaches took with how many marks.
#[derive(Clone, Copy, PartialEq, Eq, Default, Debug)]
pub struct DepotCounts {
    pub loads: u64,
    pub opens: u64,
    pub posts: u64,
    pub turns: u64,
    pub closes: u64,
    pub refused_calls: u64,
    pub bytes: u64,
    pub marks: u64,
}

impl Counts {
    // Counts a feed that took so many bytes and gave so many marks.
    pub fn count_feed(&mut self, bytes: usize, marks: usize) {
        add(&mut self.feeds, 1);
        add(&mut self.bytes, bytes);
        add(&mut self.marks, marks);
    }
}

impl DepotCounts {
    // Counts the bytes that a coach took and the marks that they gave.
    pub fn count_part(&mut self, bytes: usize, marks: usize) {
        add(&mut self.bytes, bytes);
        add(&mut self.marks, marks);
    }
}

// Raises a count.
pub fn add(count: &mut u64, by: usize) {
    *count = count.saturating_add(by as u64);
}

// As the counts are printed, in four lines.
impl fmt::Display for Counts {
    fn fmt<W: fmt::Write>(&self, f: &mut fmt::Formatter<W>) -> fmt::Result {
        let figures = self.figures;
        let automata = self.automata;
        let refused_builds = self.refused_builds;
        let images = self.images;
        writeln!(
            f,
            "{figures} figures, {automata} automata, {refused_builds} refused builds, {images} images"
        )?;
        let loads = self.loads;
        let restarts = self.restarts;
        let refused_calls = self.refused_calls;
        writeln!(
            f,
            "{loads} loads, {restarts} restarts, {refused_calls} refused calls"
        )?;
        let feeds = self.feeds;
        let bytes = self.bytes;
        let marks = self.marks;
        writeln!(f, "{feeds} feeds, {bytes} bytes, {marks} marks")?;
        let depot = self.depot;
        write!(f, "{depot}")
    }
}

// As the counts of gateways are printed, in one line.
impl fmt::Display for DepotCounts {
    fn fmt<W: fmt::Write>(&self, f: &mut fmt::Formatter<W>) -> fmt::Result {
        let loads = self.loads;
        let opens = self.opens;
        let posts = self.posts;
        let turns = self.turns;
        let closes = self.closes;
        write!(
            f,
            "gateways: {loads} loads, {opens} opens, {posts} posts, {turns} turns, {closes} closes"
        )?;
        let refused_calls = self.refused_calls;
        let bytes = self.bytes;
        let marks = self.marks;
        write!(
            f,
            ", {refused_calls} refused calls, {bytes} bytes, {marks} marks"
        )
    }
}

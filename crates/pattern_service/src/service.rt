//! From patterns to a scanner that marks by them.
ghost use Rattle.std.specs.Prelude.{◌≡◌, List, ◌∷◌, IfOk};
ghost use Rattle.automaton.specs.Limits.{handed};
ghost use Rattle.table.specs.declared.filing.Filing.{Filing};
ghost use Rattle.commission.specs.declared.words.Call.{Call};
ghost use Rattle.commission.specs.declared.words.Call.TheVariants.{Load};
ghost use Rattle.pattern_service.specs.Filed.{CompileAnswer, ImageAnswer, FilingAnswer, IsGuaranteed};

use automaton::words::Automaton;
use builder::build::build;
use card::rules::Card;
use commission::commission::commission;
use commission::words::{Call, Report};
use compiler::compile::compile;
use std::alloc::{AllocError, Global};
use syntax::places::place::Place;
use table::filing::Filing;
use ternary::refusal::Refusal;
use ternary::words::StateNo;

/// The successors of the largest automaton, and its classes.
const MOST_SUCCESSORS: usize = 131072;

const MOST_CLASSES: usize = 512;

/// The numbers of working memory that suffice to build any image, and the bytes of the largest.
const WORK: usize = 270336;

const LARGEST_IMAGE: usize = 37900;

/// What taking patterns into service did: the calls that were made, the load of their automaton first,
/// and the report of its commission.
#[derive(Drop)]
pub struct Served {
    pub calls: Vec<Call>,
    pub report: Report,
}

/// The automaton of patterns, filed with no image yet, or the refusal of a compiling.
fn compiled(
    heap: Global,
    buffer: &[u8],
    patterns: &[Place],
) -> Result<Result<Filing, Refusal>, AllocError>
    ensures { IfOk result (CompileAnswer buffer.now patterns.now) }
{
    let mut successors = vec![in heap; StateNo(0); MOST_SUCCESSORS]?;
    let mut classes = vec![in heap; 0; MOST_CLASSES]?;
    match compile(
        buffer,
        patterns,
        successors.as_mut_slice(),
        classes.as_mut_slice(),
    ) {
        Err(why) => Ok(Err(why)),
        Ok(header) => {
            let states = header.states as usize;
            successors.truncate(256 * states);
            classes.truncate(states);
            Ok(Ok(Filing {
                states: header.states,
                start: header.start,
                successors,
                classes,
                image: Vec::new(heap),
            }))
        }
    }
}

/// The image that is built of an automaton, or the refusal of a build.
fn image_of(heap: Global, automaton: Automaton<'_>) -> Result<Result<Vec<u8>, Refusal>, AllocError>
    ensures { IfOk result (ImageAnswer (handed automaton.entry)) }
{
    let mut work = vec![in heap; 0u32; WORK]?;
    let mut out = vec![in heap; 0u8; LARGEST_IMAGE]?;
    match build(automaton, work.as_mut_slice(), out.as_mut_slice()) {
        Err(why) => Ok(Err(why)),
        Ok(size) => {
            out.truncate(size);
            Ok(Ok(out))
        }
    }
}

/// The automaton of patterns, filed with its image.
pub fn file_patterns(
    heap: Global,
    buffer: &[u8],
    patterns: &[Place],
) -> Result<Result<Filing, Refusal>, AllocError>
    ensures { IfOk result (FilingAnswer buffer.now patterns.now) }
{
    let mut filing = match compiled(heap, buffer, patterns)? {
        Err(why) => return Ok(Err(why)),
        Ok(filing) => filing,
    };
    match image_of(heap, filing.automaton())? {
        Err(why) => Ok(Err(why)),
        Ok(image) => {
            filing.image = image;
            Ok(Ok(filing))
        }
    }
}

/// Commissions the automaton that the first of the calls loads, with the image that it is filed with,
/// and makes the calls.
fn commission_calls<C: Card + Drop>(
    heap: Global,
    card: C,
    calls: &[Call],
) -> Result<Report, AllocError>
    requires { (f : Filing) × (journey : List Call) × (calls.now ≡ Load f ∷ journey) }
    ensures { IfOk result (λ report. (f : Filing) → (journey : List Call)
        → calls.now ≡ Load f ∷ journey → IsGuaranteed f (C.size card) journey report) }
{
    let mut work = vec![in heap; 0u32; WORK]?;
    let mut out = vec![in heap; 0u8; LARGEST_IMAGE]?;
    let Some(first) = calls.first() else {
        unreachable!()
    };
    let Call::Load(filing) = first else {
        unreachable!()
    };
    Ok(commission(
        heap,
        filing.automaton(),
        filing.image.as_slice(),
        work.as_mut_slice(),
        out.as_mut_slice(),
        card,
        calls,
    ))
}

ghost use Rattle.pattern_service.specs.Service.{ServiceAnswer};

/// Takes patterns into service: compiles them, builds the image of their automaton, has it checked, loads
/// both on a new scanner over the card, and makes the calls of the journey on it.
pub fn serve<C: Card + Drop>(
    heap: Global,
    buffer: &[u8],
    patterns: &[Place],
    card: C,
    mut journey: Vec<Call>,
) -> Result<Result<Served, Refusal>, AllocError>
    ensures { IfOk result (ServiceAnswer buffer.now patterns.now (C.size card) journey.items) }
{
    let filing = match file_patterns(heap, buffer, patterns)? {
        Err(why) => return Ok(Err(why)),
        Ok(filing) => filing,
    };
    journey.insert(0, Call::Load(filing))?;
    let report = commission_calls(heap, card, journey.as_slice())?;
    Ok(Ok(Served {
        calls: journey,
        report,
    }))
}

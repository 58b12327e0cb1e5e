//! Whether what was parsed is within the limits.
ghost use Rattle.std.specs.Prelude.{◌≡◌, ◌≢◌, MatchResult, IfErr, map};
ghost use Rattle.dlk_calculus.specs.Limits.{most_nodes, greatest_depth};
ghost use Rattle.dlk_parse.specs.Limits.{least_ill, past, KnowsWithin, KnowsBeyond, IsAmong};
ghost use Rattle.dlk_parse.specs.declared.fault.ParseFault.TheVariants.{Memory};
ghost use Rattle.dlk_parse.specs.Said.{HasPlaces, IsWithin, IsCodeBeyond};

use crate::fault::ParseFault;
use crate::measures::{Measure, lesser, measures};
use dlk_calculus::{GREATEST_DEPTH, MOST_NODES};
use dlk_reader::Code;
use std::alloc::Global;

/// The first of the trees' sizes that is past the limit.
fn first_size(measures: &[Measure]) -> Option<u32>
    ensures { result ≡ past most_nodes (map (λ m. m.size) measures.now) }
{
    for measure in measures {
        if measure.size > MOST_NODES {
            return Some(measure.size);
        }
    }
    None
}

/// The first of the trees' depths that is past the limit.
fn first_depth(measures: &[Measure]) -> Option<u32>
    ensures { result ≡ past greatest_depth (map (λ m. m.depth) measures.now) }
{
    for measure in measures {
        if measure.depth > GREATEST_DEPTH {
            return Some(measure.depth);
        }
    }
    None
}

/// The least place of ill shape.
fn least_ill(measures: &[Measure]) -> Option<usize>
    ensures { result ≡ least_ill measures.now }
{
    let mut ill = None;
    for measure in measures {
        ill = lesser(ill, measure.ill);
    }
    ill
}

/// Refuses what is of ill shape, too big or too deep, whichever applies first in this order.
#[tactic(auto, using(crate::proofs::Within::ill_at, crate::proofs::Within::big_is, crate::proofs::Within::deep_is, crate::proofs::Within::fine_is))]
fn check_limits(starts: &[usize], measures: &[Measure]) -> Result<(), ParseFault>
    requires { IsAmong measures.now starts.now }
    ensures limits { MatchResult result (λ _. KnowsWithin measures.now) (KnowsBeyond measures.now starts.now) }
    ensures decides { IfErr result (λ why. why ≢ Memory) }
{
    if let Some(place) = least_ill(measures) {
        return Err(ParseFault::Shape { at: starts[place] });
    }
    if let Some(size) = first_size(measures) {
        return Err(ParseFault::TooBig { size });
    }
    if let Some(depth) = first_depth(measures) {
        return Err(ParseFault::TooDeep { depth });
    }
    Ok(())
}

/// Refuses a code whose phrases are beyond the limits. The tokens begin at these bytes.
pub(crate) fn check_code(alloc: Global, starts: &[usize], code: &[Code]) -> Result<(), ParseFault>
    requires { HasPlaces code.now starts.now }
    ensures { MatchResult result (λ _. IsWithin code.now) (IsCodeBeyond code.now starts.now) }
{
    let measures = measures(alloc, code)?;
    check_limits(starts, measures.as_slice())
}

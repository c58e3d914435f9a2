// The two delay tests and that for fixed priority, each called twice.
ghost use Rattle.std.specs.Prelude.{◌≡◌, true};
ghost use Rattle.model.specs.Refusals.{good};
ghost use Rattle.model.specs.Sets.{used};
ghost use Rattle.document.specs.Reader.{record_fault};
ghost use Rattle.delay.specs.AllBounds.{AllBoundsAnswer, AllBoundsOf};
ghost use Rattle.delay.specs.AllFixed.{AllFixedAnswer, AllFixedOf};

use delay::{AllBounds, AllFixed};
use model::{Bounds, Fault, FixedBounds, FixedVerdict, FlowSet, Verdict};

#[tactic(auto, using(delay::specs::AllBounds::all_bounds_once))]
pub fn bounds_of_accepted(s: FlowSet) -> (AllBounds, AllBounds)
    requires { good (record_fault (used s)).refusal ≡ true }
    ensures { result.0 ≡ result.1 }
{
    (delay::bounds_of_accepted(s), delay::bounds_of_accepted(s))
}

#[tactic(auto, using(delay::specs::AllBounds::bounds_answer_once))]
pub fn all_bounds(s: FlowSet) -> (Result<AllBounds, Fault>, Result<AllBounds, Fault>)
    ensures { result.0 ≡ result.1 }
{
    (delay::all_bounds(s), delay::all_bounds(s))
}

pub fn verdict_of_all(s: &FlowSet, all: &AllBounds) -> (Verdict, Verdict)
    requires { AllBoundsOf (used s.now) all.now }
    ensures { result.0 ≡ result.1 }
{
    (all.verdict(s), all.verdict(s))
}

pub fn bounds_of_all(s: &FlowSet, k: u16, all: &AllBounds) -> (Bounds, Bounds)
    requires { AllBoundsOf (used s.now) all.now }
    ensures { result.0 ≡ result.1 }
{
    (all.bounds(s, k), all.bounds(s, k))
}

pub fn verdict_of(s: FlowSet, all: Result<AllBounds, Fault>) -> (Verdict, Verdict)
    requires { AllBoundsAnswer (used s) all }
    ensures { result.0 ≡ result.1 }
{
    (delay::verdict_of(s, all), delay::verdict_of(s, all))
}

pub fn verdict(s: FlowSet) -> (Verdict, Verdict)
    ensures { result.0 ≡ result.1 }
{
    (delay::verdict(s), delay::verdict(s))
}

pub fn bounds_of(s: FlowSet, k: u16, all: Result<AllBounds, Fault>) -> (Bounds, Bounds)
    requires { AllBoundsAnswer (used s) all }
    ensures { result.0 ≡ result.1 }
{
    (delay::bounds_of(s, k, all), delay::bounds_of(s, k, all))
}

pub fn bounds(s: FlowSet, k: u16) -> (Bounds, Bounds)
    ensures { result.0 ≡ result.1 }
{
    (delay::bounds(s, k), delay::bounds(s, k))
}

#[tactic(auto, using(delay::specs::AllFixed::all_fixed_once))]
pub fn fixed_of_accepted(s: FlowSet) -> (AllFixed, AllFixed)
    requires { good (record_fault (used s)).refusal ≡ true }
    ensures { result.0 ≡ result.1 }
{
    (delay::fixed_of_accepted(s), delay::fixed_of_accepted(s))
}

#[tactic(auto, using(delay::specs::AllFixed::fixed_answer_once))]
pub fn all_fixed(s: FlowSet) -> (Result<AllFixed, Fault>, Result<AllFixed, Fault>)
    ensures { result.0 ≡ result.1 }
{
    (delay::all_fixed(s), delay::all_fixed(s))
}

pub fn fixed_verdict_of_all(s: &FlowSet, all: &AllFixed) -> (FixedVerdict, FixedVerdict)
    requires { AllFixedOf (used s.now) all.now }
    ensures { result.0 ≡ result.1 }
{
    (all.verdict(s), all.verdict(s))
}

pub fn fixed_bounds_of_all(s: &FlowSet, k: u16, all: &AllFixed) -> (FixedBounds, FixedBounds)
    requires { AllFixedOf (used s.now) all.now }
    ensures { result.0 ≡ result.1 }
{
    (all.bounds(s, k), all.bounds(s, k))
}

pub fn fixed_verdict_of(s: FlowSet, all: Result<AllFixed, Fault>) -> (FixedVerdict, FixedVerdict)
    requires { AllFixedAnswer (used s) all }
    ensures { result.0 ≡ result.1 }
{
    (
        delay::fixed_verdict_of(s, all),
        delay::fixed_verdict_of(s, all),
    )
}

pub fn fixed_verdict(s: FlowSet) -> (FixedVerdict, FixedVerdict)
    ensures { result.0 ≡ result.1 }
{
    (delay::fixed_verdict(s), delay::fixed_verdict(s))
}

pub fn fixed_bounds_of(
    s: FlowSet,
    k: u16,
    all: Result<AllFixed, Fault>,
) -> (FixedBounds, FixedBounds)
    requires { AllFixedAnswer (used s) all }
    ensures { result.0 ≡ result.1 }
{
    (
        delay::fixed_bounds_of(s, k, all),
        delay::fixed_bounds_of(s, k, all),
    )
}

pub fn fixed_bounds(s: FlowSet, k: u16) -> (FixedBounds, FixedBounds)
    ensures { result.0 ≡ result.1 }
{
    (delay::fixed_bounds(s, k), delay::fixed_bounds(s, k))
}

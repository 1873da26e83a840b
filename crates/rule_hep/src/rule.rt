ghost use Rattle.std.specs.Prelude.{◌≡◌, IfOk};
ghost use Rattle.std.specs.Option.{option_map};
ghost use Rattle.cal_rel.specs.Tree.{tree_of};
ghost use Rattle.rule_hep.specs.Meaning.{Meaning};

use cal_rel::{PlanInfo, Rel};
use cal_value::NoMemory;
use std::alloc::Global;

/// Which inputs a rule looks into. A planner over sets of equivalent trees hands it nodes whose inputs are holes, but for these.
#[derive(Clone, Copy, Debug, PartialEq, Eq)]
pub enum Reach {
    /// None.
    Node,
    /// The first input.
    FirstChild,
    /// Each input.
    BothChildren,
    /// The first input and its first input.
    Chain,
}

/// A rule that rewrites a tree. What it means is one value, `meaning`: a name, two settings, and for each tree the images that may
/// stand for it, with the proof that they may.
pub trait Rule: Send + Sync + Drop {
    ghost meaning: { Self → Meaning };

    /// The rule's name.
    fn name(&self) -> &str
        ensures { result.now ≡ (meaning self.now).name };

    /// Whether `hep` rewrites by it.
    fn in_hep(&self) -> bool
        ensures { result ≡ (meaning self.now).in_hep };

    /// Which inputs it looks into. Nothing is promised of a rule that looks further, but that it finds holes there.
    fn reach(&self) -> Reach
        ensures { result ≡ (meaning self.now).reach };

    /// From this number on no tree has an image. It is the same for all types of sets.
    fn width(&self, info: &PlanInfo) -> u32
        ensures { result ≡ (meaning self.now).width info.now };

    /// The image of this number, from 0, where there is one: well formed, with columns of the same kinds, and it means what `rel` means over
    /// every database that fits and all rows in the holes that fit their sets. Fails for want of memory alone.
    fn apply(
        &self,
        alloc: Global,
        info: &PlanInfo,
        rel: &Rel,
        nth: u32,
    ) -> Result<Option<Rel>, NoMemory>
        ensures { IfOk result (λ image. option_map tree_of image
            ≡ (meaning self.now).image info.now (tree_of rel.now) nth) };
}

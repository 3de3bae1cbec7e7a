// The features of a container that are refused, by its superblock.
//
// Tests: Fusion, Version, UnknownContainer, Resizing. Gives: the first that is there. Rests on: the superblock's fields.
ghost use Rattle.std.specs.Prelude.{◌≡◌, IfSome, IsNone, []};
ghost use Rattle.apfs_model.specs.Lists.{In};
ghost use Rattle.nx_ring.specs.Features as features;

use apfs_layout::container;
use nx_block::NxView;
use obj_base::Feature;

// The features without a name (Container, Incompatible Container Feature Flags).
const OTHERS: u64 = !(container::VERSION_1 | container::VERSION_2 | container::FUSION);

#[tactic(auto, unfolding(crate::specs::Features::is_fusion))]
fn is_fusion(nx: &NxView<'_>) -> bool
    ensures { result ≡ features.is_fusion nx.now }
{
    nx.incompat() & container::FUSION == container::FUSION
}

#[tactic(auto, unfolding(crate::specs::Features::has_other_version))]
fn has_other_version(nx: &NxView<'_>) -> bool
    ensures { result ≡ features.has_other_version nx.now }
{
    nx.incompat() & container::VERSION_1 == container::VERSION_1
        || nx.incompat() & container::VERSION_2 != container::VERSION_2
}

#[tactic(auto, unfolding(crate::specs::Features::has_unknown_feature))]
fn has_unknown_feature(nx: &NxView<'_>) -> bool
    ensures { result ≡ features.has_unknown_feature nx.now }
{
    nx.incompat() & OTHERS != 0
}

#[tactic(auto, unfolding(crate::specs::Features::is_resizing))]
fn is_resizing(nx: &NxView<'_>) -> bool
    ensures { result ≡ features.is_resizing nx.now }
{
    nx.blocked().1 != 0 || nx.eviction() != 0
}

// A feature of the container that is refused, where it has one.
#[tactic(auto, unfolding(crate::specs::Features::container_features))]
pub(crate) fn feature_of(nx: &NxView<'_>) -> Option<Feature>
    ensures none { IsNone result → features.container_features nx.now ≡ [] }
    ensures some { IfSome result (λ name. In name (features.container_features nx.now)) }
{
    if is_fusion(nx) {
        return Some(Feature::Fusion);
    }
    if has_other_version(nx) {
        return Some(Feature::Version);
    }
    if has_unknown_feature(nx) {
        return Some(Feature::UnknownContainer);
    }
    if is_resizing(nx) {
        return Some(Feature::Resizing);
    }
    None
}

// The words of faults: the test that fails, and where an id is looked up.
ghost use Rattle.std.specs.Prelude.{◌≡◌, IfOk};
ghost use Rattle.std.specs.String.{string_bytes};
ghost use Rattle.cmd_lines.specs.FaultTexts as texts;

use bt_node::NodeFault;
use fs_record::RecFault;
use obj_base::{HeadFault, Within};
use reach_rules::Why;
use std::alloc::{AllocError, Global};

/// The test of a header that fails.
pub fn head_word(fault: HeadFault) -> &'static str
    ensures { result.now ≡ texts.head_word fault }
{
    match fault {
        HeadFault::BadSum => "BadSum",
        HeadFault::BadKind => "BadKind",
        HeadFault::BadSubtype => "BadSubtype",
        HeadFault::BadOid => "BadOid",
        HeadFault::BadXid => "BadXid",
    }
}

/// The test of a node that fails.
pub fn node_word(fault: NodeFault) -> &'static str
    ensures { result.now ≡ texts.node_word fault }
{
    match fault {
        NodeFault::Head(fault) => head_word(fault),
        NodeFault::Level => "Level",
        NodeFault::Flags => "Flags",
        NodeFault::Bounds => "Bounds",
        NodeFault::Key => "Key",
        NodeFault::Empty => "Empty",
        NodeFault::Ghost => "Ghost",
    }
}

/// The test that a named object fails.
pub fn why_word(why: Why) -> &'static str
    ensures { result.now ≡ texts.why_word why }
{
    match why {
        Why::Node(fault) => node_word(fault),
        Why::Magic => "Magic",
    }
}

/// The part of a record that is wrong.
pub fn record_word(fault: RecFault) -> &'static str
    ensures { result.now ≡ texts.record_word fault }
{
    match fault {
        RecFault::Length => "Length",
        RecFault::Name => "Name",
        RecFault::Fields => "Fields",
        RecFault::Flags => "Flags",
    }
}

/// Where an id is looked up.
pub fn within_text(alloc: Global, within: Within) -> Result<String, AllocError>
    ensures { IfOk result (λ text. string_bytes text ≡ texts.within_text within) }
{
    match within {
        Within::Physical => String::from_str(alloc, "physical"),
        Within::Ephemeral => String::from_str(alloc, "ephemeral"),
        Within::Container => String::from_str(alloc, "container"),
        Within::Volume(slot) => format!(in alloc; "volume {slot}"),
    }
}

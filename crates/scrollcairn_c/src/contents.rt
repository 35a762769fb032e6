// What a bench file says beside its events, as lists of numbers.
ghost use Rattle.std.specs.Prelude.{◌≡◌};
ghost use Rattle.scrollcairn_c.specs.Exported.{content_from, counts_of};

use benchfile::Content;

// Stores a content.
#[tactic(auto, unfolding(crate::specs::Exported::counts_of, model::specs::Network::bit))]
pub fn put(content: Content, groups: &mut [u32; 24], parents: &mut [u8; 32], counts: &mut [u16; 4])
    ensures { (groups.new ≡ content.groups) × (parents.new ≡ content.parents)
        × (counts.new ≡ counts_of content) }
{
    // An array that is a field is stored from a variable: the borrow checker takes no other form.
    let sets = content.groups;
    *groups = sets;
    let drawn = content.parents;
    *parents = drawn;
    *counts = [
        u16::from(content.units),
        u16::from(content.count),
        u16::from(content.build),
        content.events,
    ];
}

// The content that such lists say.
#[tactic(auto, unfolding(crate::specs::Exported::content_from))]
pub fn of(groups: [u32; 24], parents: [u8; 32], counts: [u16; 4]) -> Content
    ensures { result ≡ content_from groups parents counts }
{
    Content {
        units: (counts[0] % 256) as u8,
        count: (counts[1] % 256) as u8,
        groups,
        build: counts[2] != 0,
        parents,
        events: counts[3],
    }
}

// What counts of a list of groups.
ghost use Rattle.std.specs.Prelude.{◌≡◌};
ghost use Rattle.forest.specs.Calls.{counted as countedOf};

// The groups that count; the places past them are emptied, and not read.
pub fn counted(mut groups: [u32; 24], count: usize) -> [u32; 24]
    ensures { result ≡ countedOf count groups }
{
    groups[count.min(24)..].fill(0);
    groups
}

// Numbers put into a lent list of wider numbers.
#![tactic(auto)]

ghost use Rattle.text.specs.Writing.{Writes};

use text::writing::Output;

// A list of 16-bit numbers, into a list of 32-bit numbers.
pub fn put_widened(output: &mut Output<u32>, numbers: &[u16])
    ensures { Writes numbers.now output.old output.new }
{
    for number in numbers {
        output.item(*number as u32);
    }
}

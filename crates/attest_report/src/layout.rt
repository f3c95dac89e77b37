// How a report names the layout of the tree's nodes.
ghost use Rattle.attest_report.specs.ToldLayout as told;
ghost use Rattle.std.specs.Prelude.{◌≡◌};

use sec_base::Layout;

/// The number of a layout, as a report has it.
pub fn layout_number(layout: Layout) -> u8
    ensures { result ≡ told.layout_number layout }
{
    match layout {
        Layout::One => 1,
        Layout::Two => 2,
    }
}

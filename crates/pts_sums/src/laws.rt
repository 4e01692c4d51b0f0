//! What sums and scans answer is what the standard permits.

ghost use Rattle.pts_sums.specs.Laws as laws;

use pts_groupings::{places_are_sums_of_their_items, sums_of_groupings_are_generalized};

/// The outcome of a reduction lies in the generalized sum of its first value and its items, whatever the grouping; where an item is a
/// throw, so is the outcome ([reduce], [transform.reduce]).
pub fn sums_are_those_of_the_standard()
    ensures { laws.SumsAreGeneralized }
{
    sums_of_groupings_are_generalized();
}

/// Each place of a scan is the sum that the standard names for it; a scan throws only where such a sum may, and wherever an item that
/// belongs to a place is a throw ([inclusive.scan], [exclusive.scan]).
pub fn places_are_those_of_the_standard()
    ensures written { laws.WrittenPlacesAreSums }
    ensures thrown { laws.ThrowsAreSums }
    ensures items { laws.ItemsThrow }
{
    places_are_sums_of_their_items();
}

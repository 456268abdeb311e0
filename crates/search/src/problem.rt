// What a search works on.
ghost use Rattle.moment.specs.Range.{Within};

use crate::Fixed;
use approach::turns::Prepared;

// The passes of a search, and what it holds fixed beside them: a station whose epoch passed refusal 4, and two elements.
#[derive(Clone, Copy)]
pub struct Problem<'a> {
    pub passes: Prepared<'a>,
    pub fixed: Fixed,
    ghost dated: { Within 0 fixed.station.epoch.secs fixed.station.epoch.nanos },
}

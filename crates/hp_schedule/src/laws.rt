//! Laws: what the order by clock gives. The functions do nothing.
ghost use Rattle.hp_schedule.specs.Laws.{OneOrderLaw, RankedLaw};

/// An order by clock has ranks, and equations have one, whatever their places were.
pub fn order_by_clock_is_one()
    ensures ranked { RankedLaw }
    ensures one { OneOrderLaw }
{}

// The head: the header's fields, day, time, counts and what is kept for each member.
ghost use Rattle.std.specs.Prelude.{◌≡◌, ◌+◌, ◌≤◌, length, slice_index};
ghost use Rattle.arith.specs.Lists.{every, from};
ghost use Rattle.rules.specs.Ranges.{most_members};
ghost use Rattle.rules.specs.Ledger.{Tables, with_head, head_length, first_year_place};
ghost use Rattle.rules.specs.Refusals.{member_sound, head_sound};
ghost use Rattle.months.specs.Bounds.{FirstYear};
ghost use Rattle.months.specs.Spans.{IsSpanOf};

use calendar::{is_calendar_sound, is_day_sound};
use months::Span;
use rules::{DayNo, layout, ranges};

// Whether each member's limit, mark and count in the present second are in range: by index, since a host lends the head
// as one row of numbers, in which a member has a place in each of three lists.
fn are_members_sound(head: &[u64], members: u64) -> bool
    requires { (head_length ≤ length head.now) × (members ≤ most_members) }
    ensures { (t : Tables) → result ≡ every (member_sound (with_head head.now t)) (from 0 members) }
{
    let mut ok = true;
    for m in 0..members as usize {
        ok &= (head[layout::LIMITS + m] <= ranges::MOST_LIMIT)
            & (head[layout::MARKS + m] <= layout::DEFAULT_MARK)
            & (head[layout::SUBMITS + m] <= ranges::MOST_SUBMITS_IN_SECOND);
    }
    ok
}

// Whether the head is sound, given its sound first year and its span. Every count is tested before it is used.
pub fn is_head_sound(head: &[u64], span: Span) -> bool
    requires { (head_length ≤ length head.now) × FirstYear (slice_index head.now first_year_place) × IsSpanOf span (slice_index head.now first_year_place) }
    ensures { (t : Tables) → result ≡ head_sound (with_head head.now t) }
{
    let members = head[layout::MEMBERS];
    let count = head[layout::HOLIDAY_COUNT];
    if ranges::MOST_HOLIDAYS < count {
        return false;
    }
    let end = layout::HOLIDAYS + count as usize;
    let holidays = &head[layout::HOLIDAYS..end];
    if !is_calendar_sound(head[layout::FIRST_YEAR], span, holidays) {
        return false;
    }
    if members < 1 {
        return false;
    }
    if ranges::MOST_MEMBERS < members {
        return false;
    }
    let day = is_day_sound(span, holidays, DayNo(head[layout::DAY]));
    let counts = (head[layout::TIME] <= ranges::LAST_SECOND)
        & (head[layout::ACCEPTED_SUBMITS] <= ranges::MOST_ACCEPTED_SUBMITS)
        & (head[layout::LOTS_RUN] <= ranges::MOST_LOTS_RUN)
        & (head[layout::ORDER_COUNT] <= ranges::MOST_ORDERS);
    day & counts & are_members_sound(head, members)
}

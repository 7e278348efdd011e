//! Which slots of a page need more than a glance before pruning: few on most pages, and only those are gone over again. Where it is
//! known which versions may be dead, no other header is looked at.

ghost use Rattle.std.specs.Prelude.{◌≡◌, ◌+◌, ◌<◌, ℕ, [], true, false, IsTrue, Contains, length, reverse};
ghost use Rattle.tuple_header.specs.declared.version.TheConstants.{MOST_SLOT_NUMBERS};
ghost use Rattle.commit_status.specs.Window.{IsAborted};
ghost use Rattle.page_sheet.specs.Slots.{SlotIsThere};
ghost use Rattle.prune.specs.Marks.{ListsAllBut};
ghost use Rattle.prune.specs.Glances.{IsPlain, IsPlainAt, StartsPlainly, ArePlainOrNotedOver, IsGlance, is_noted, StartsUnnoted, ArePlainBut, AreDoubts};

use arrayvec::ArrayVec;
use commit_status::StatusTable;
use page_slots::{Page, SlotHead};
use space_maps::{DOUBT_PLACES, Doubts, with_doubt};
use tuple_header::{Header, MOST_SLOT_NUMBERS};
use xid_circle::Xid;

/// Numbers of slots, in order. A page has at most 291.
pub(crate) type Numbers = ArrayVec<u16, MOST_SLOT_NUMBERS>;

/// For each number from 0 to 291, whether its slot is noted.
type Noted = [bool; MOST_SLOT_NUMBERS];

/// The outcome of a glance at a slot.
#[derive(Clone, Copy, Debug)]
pub(crate) enum Glance {
    /// The slot needs a closer look.
    Doubtful,
    /// It plainly stays.
    Stays,
    /// It plainly stays, with a version of this inserter, which was not aborted.
    PlainVersion(Xid),
}

/// True only where nobody deleted a version, and its inserter was not aborted: so it is neither dead nor replaced at any horizon.
/// Neighbours mostly have one inserter, so the status of an inserter that is known as not aborted is not looked up.
#[inline(always)]
fn is_plain(header: &Header, known: Xid, statuses: &StatusTable) -> bool
    requires known { ¬ IsAborted statuses.now known.0 }
    ensures { IsTrue result → IsPlain statuses.now header.now }
{
    header.xmax.0 == 0 && (header.xmin.0 == known.0 || !statuses.is_aborted(header.xmin))
}

/// True only where the version in a slot is plain, or there is none.
#[inline(never)]
pub(crate) fn is_plain_at(page: &Page, number: u16, statuses: &StatusTable) -> bool
    ensures { IsTrue result → IsPlainAt statuses.now page.now.slots number }
{
    match page.header(number) {
        Some(header) => is_plain(&header, Xid(0), statuses),
        None => true,
    }
}

/// True only where the version in the target slot is plain, or there is none. Slots over this one are noted where theirs is not,
/// and redirects mostly lead there: so the version is seldom looked at.
#[inline(always)]
fn leads_plainly(
    page: &Page,
    number: u16,
    target: u16,
    noted: &Noted,
    statuses: &StatusTable,
) -> bool
    requires noted { ArePlainOrNotedOver statuses.now page.now.slots noted.now number }
    ensures { IsTrue result → IsPlainAt statuses.now page.now.slots target }
{
    let _limit = page.slots();
    if target <= number {
        is_plain_at(page, target, statuses)
    } else if usize::from(target) < MOST_SLOT_NUMBERS {
        !noted[usize::from(target)]
    } else {
        true
    }
}

/// Glances at a slot, when those over it that need a closer look are noted.
#[inline(always)]
fn glance_at(page: &Page, number: u16, noted: &Noted, known: Xid, statuses: &StatusTable) -> Glance
    requires there { SlotIsThere page.now.slots number }
    requires known { ¬ IsAborted statuses.now known.0 }
    requires noted { ArePlainOrNotedOver statuses.now page.now.slots noted.now number }
    ensures { IsGlance statuses.now page.now.slots number result }
{
    match page.head(number) {
        SlotHead::Version(header) => {
            if is_plain(&header, known, statuses) {
                Glance::PlainVersion(header.xmin)
            } else {
                Glance::Doubtful
            }
        }
        SlotHead::Redirect(target) => {
            if leads_plainly(page, number, target, noted, statuses) {
                Glance::Stays
            } else {
                Glance::Doubtful
            }
        }
        SlotHead::Empty => Glance::Stays,
    }
}

/// Lists the slots that need a closer look, from the last to the first: so a redirect mostly comes after the slot where it leads.
/// The list is empty before.
#[inline(always)]
fn list_backwards(doubtful: &mut Numbers, page: &Page, statuses: &StatusTable)
    requires blank { doubtful.old.items ≡ [] }
    ensures { ListsAllBut
        (StartsPlainly statuses.now page.now.slots) 0 (reverse doubtful.new.items)
        (length page.now.slots + 1) }
{
    let mut noted = [false; MOST_SLOT_NUMBERS];
    // 0 is no id, so it was not aborted.
    let mut known = Xid(0);
    let mut number = page.slots();
    while number > 0 {
        match glance_at(page, number, &noted, known, statuses) {
            Glance::Stays => number -= 1,
            Glance::PlainVersion(inserter) => {
                if inserter.0 == known.0 {
                    number = page.last_unlike(number - 1, known);
                } else {
                    known = inserter;
                    number -= 1;
                }
            }
            Glance::Doubtful => {
                doubtful.push(number);
                noted[usize::from(number)] = true;
                number -= 1;
            }
        }
    }
}

/// Notes each of these numbers that a slot may have.
#[inline(always)]
fn note_all(noted: &mut Noted, numbers: &[u16; DOUBT_PLACES])
    ensures { (n : ℕ) → n < MOST_SLOT_NUMBERS → Contains numbers.now n
        → is_noted noted.new n ≡ true }
{
    for number in numbers {
        if usize::from(*number) < MOST_SLOT_NUMBERS {
            noted[usize::from(*number)] = true;
        }
    }
}

/// True where the slot at which this one's chain begins is noted.
#[inline(always)]
fn is_start_noted(page: &Page, number: u16, noted: &Noted) -> bool
    ensures { result ≡ false → StartsUnnoted page.now.slots noted.now number }
{
    let start = page.redirect(number).unwrap_or(number);
    usize::from(start) < MOST_SLOT_NUMBERS && noted[usize::from(start)]
}

/// Lists the slots, from the last to the first, whose chains begin in one of these slots. Versions in all other slots are plain, so
/// no header is looked at. The list is empty before.
#[inline(always)]
fn list_known_backwards(
    doubtful: &mut Numbers,
    page: &Page,
    numbers: &[u16; DOUBT_PLACES],
    statuses: &StatusTable,
)
    requires blank { doubtful.old.items ≡ [] }
    requires known { ArePlainBut statuses.now page.now.slots numbers.now }
    ensures { ListsAllBut
        (StartsPlainly statuses.now page.now.slots) 0 (reverse doubtful.new.items)
        (length page.now.slots + 1) }
{
    let mut noted = [false; MOST_SLOT_NUMBERS];
    note_all(&mut noted, numbers);
    let mut number = page.slots();
    while number > 0 {
        if is_start_noted(page, number, &noted) {
            doubtful.push(number);
        }
        number -= 1;
    }
}

/// Lists these slots in order.
#[inline(never)]
fn list_known(
    doubtful: &mut Numbers,
    page: &Page,
    numbers: &[u16; DOUBT_PLACES],
    statuses: &StatusTable,
)
    requires blank { doubtful.old.items ≡ [] }
    requires known { ArePlainBut statuses.now page.now.slots numbers.now }
    ensures { ListsAllBut (StartsPlainly statuses.now page.now.slots) 0 doubtful.new.items
        (length page.now.slots + 1) }
{
    list_known_backwards(doubtful, page, numbers, statuses);
    doubtful.as_mut_slice().reverse();
}

/// Lists the slots of a page that do not plainly stay: few where pruning finds little, and none where each version is undeleted
/// and not rolled back. The list is empty before.
pub(crate) fn list_doubtful(doubtful: &mut Numbers, page: &Page, statuses: &StatusTable)
    requires blank { doubtful.old.items ≡ [] }
    ensures { ListsAllBut (StartsPlainly statuses.now page.now.slots) 0 doubtful.new.items
        (length page.now.slots + 1) }
{
    list_backwards(doubtful, page, statuses);
    doubtful.as_mut_slice().reverse();
}

/// As above; if the page's doubts are known, only those slots are looked at.
#[inline(always)]
pub(crate) fn list_by_doubts(
    doubtful: &mut Numbers,
    page: &Page,
    known: &Doubts,
    statuses: &StatusTable,
)
    requires blank { doubtful.old.items ≡ [] }
    requires known { AreDoubts statuses.now page.now.slots known.now }
    ensures { ListsAllBut (StartsPlainly statuses.now page.now.slots) 0 doubtful.new.items
        (length page.now.slots + 1) }
{
    match known {
        Some(numbers) => list_known(doubtful, page, numbers, statuses),
        None => list_doubtful(doubtful, page, statuses),
    }
}

/// The slots of versions that are not plain, if they are few enough to be noted. They are among the slots that are listed.
pub(crate) fn doubts_among(page: &Page, doubtful: &[u16], statuses: &StatusTable) -> Doubts
    requires { ListsAllBut (StartsPlainly statuses.now page.now.slots) 0 doubtful.now
        (length page.now.slots + 1) }
    ensures { AreDoubts statuses.now page.now.slots result }
{
    let mut doubts = Some([0; DOUBT_PLACES]);
    for number in doubtful {
        if doubts.is_none() {
            return None;
        }
        if !is_plain_at(page, *number, statuses) {
            doubts = with_doubt(doubts, *number);
        }
    }
    doubts
}

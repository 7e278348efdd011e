//! Pages that are changed at random beside a list of their slots, and read back from their bytes again and again.

ghost use Rattle.std.specs.Prelude.{◌≡◌, ◌<◌, None, IfSome};
ghost use Rattle.tuple_header.specs.Faults.{header_fault};

use crate::page_faults::{REDIRECTED, page_with};
use crate::slot_list::{Listed, SlotList, agrees, size_of};
use arrayvec::ArrayVec;
use page_slots::{Page, PageFault, check_page};
use rand_core::utils::NextWord;
use rand_pcg::Pcg32;
use std::test::Fail;
use tuple_header::{Header, Row, Tuple, fault_of};
use xid_circle::{Tid, Xid};

/// How many changes are made to a page.
const CHANGES: u32 = 800;

/// A page and the list of its slots, and where its next change comes from.
#[derive(Drop)]
struct Pair {
    page: Page,
    list: SlotList,
    rng: Pcg32,
    /// Whether the page is kept full of versions of one size, and hardly any slot is used again: so mostly one version went where versions
    /// are moved together.
    tight: bool,
    /// How often the page was read back, and how often a fault was found as the list has it.
    read: u32,
    faulty: u32,
}

/// A header with this mark, and no fault.
fn header_of(heap_only: bool) -> Option<Header>
    ensures { IfSome result (λ header. header_fault header ≡ None) }
{
    let mut header = Header::new(Xid(3), Tid { page: 0, slot: 1 });
    if heap_only {
        header.mask2 |= Header::HEAP_ONLY;
    }
    if fault_of(&header).is_some() {
        return None;
    }
    Some(header)
}

/// The length of each body on a page that is kept full, and the room that its version takes in a new slot.
const TIGHT_LENGTH: u16 = 16;

const TIGHT_SIZE: usize = 92;

/// A version with this header of this key, each byte of whose body is the key.
fn version(header: Header, key: u8, length: u16) -> Tuple
    requires { header_fault header ≡ None }
{
    let mut body = ArrayVec::new();
    for _ in 0..length {
        let _ = body.try_push(key);
    }
    Tuple {
        header,
        row: Row {
            key: u64::from(key),
            cols: [5, 0, -1, -2],
            body,
        },
    }
}

impl Pair {
    /// A number below n.
    fn draw(&mut self, n: u16) -> u16
        requires { 0 < n }
        ensures { result < n }
    {
        (self.rng.next_word() % u32::from(n)) as u16
    }

    /// The length of a body, mostly a short one.
    fn draw_length(&mut self) -> u16 {
        if self.tight {
            return TIGHT_LENGTH;
        }
        match self.draw(8) {
            0 => self.draw(1025),
            _ => self.draw(40),
        }
    }

    /// The number of a slot, if there is one.
    fn draw_slot(&mut self) -> Option<u16> {
        let count = self.page.slots();
        if count == 0 {
            return None;
        }
        Some(self.draw(count).wrapping_add(1))
    }

    /// Adds a version, mostly a short one, and says whether its number, or that the page is full, is as the list has it.
    fn add(&mut self) -> bool {
        let [key, _high] = self.draw(256).to_le_bytes();
        let length = self.draw_length();
        let heap_only = self.draw(2) == 1;
        let fits = size_of(length) <= self.list.room();
        let Some(header) = header_of(heap_only) else {
            return false;
        };
        let read = check_page(self.page.bytes());
        match self.page.add(version(header, key, length)) {
            Ok(number) => {
                let expected = self.list.free_number();
                self.list.add(Listed::Version(key, length, heap_only));
                fits && usize::from(number) == expected
                    && self.moves_as(read, version(header, key, length))
            }
            Err(_full) => !fits,
        }
    }

    /// Whether the bytes of the page are those of a page that was read, if it was, once it gets the same version. Of such a page nothing is
    /// known of how versions lie.
    fn moves_as(&self, read: Result<Page, PageFault>, version: Tuple) -> bool {
        match read {
            Ok(mut page) => page.add(version).is_ok() && page.bytes() == self.page.bytes(),
            Err(_fault) => true,
        }
    }

    /// Makes a version heap-only, or no longer so.
    fn turn(&mut self, number: u16) {
        let index = usize::from(number).wrapping_sub(1);
        let Some(Listed::Version(key, length, heap_only)) = self.list.slots.get(index).copied()
        else {
            return;
        };
        let Some(mut header) = self.page.header(number) else {
            return;
        };
        header.mask2 ^= Header::HEAP_ONLY;
        if fault_of(&header).is_none() {
            self.page.set_header(number, header);
            self.list
                .put(index, Listed::Version(key, length, !heap_only));
        }
    }

    fn lead(&mut self, number: u16) {
        let Some(target) = self.draw_slot() else {
            return;
        };
        let count = self.page.slots();
        if 1 <= number && number <= count && 1 <= target && target <= count {
            self.page.set_redirect(number, target);
            self.list
                .put(usize::from(number) - 1, Listed::Redirect(target));
        }
    }

    fn make_dead(&mut self, number: u16) {
        if 1 <= number && number <= self.page.slots() {
            self.page.set_dead(number);
            self.list.put(usize::from(number) - 1, Listed::Dead);
        }
    }

    fn make_unused(&mut self, number: u16) {
        if 1 <= number && number <= self.page.slots() {
            self.page.set_unused(number);
            self.list.put(usize::from(number) - 1, Listed::Unused);
        }
    }

    /// Changes the slot of this number, if there is one.
    fn change_slot(&mut self, number: u16) {
        match self.draw(8) {
            0 => self.make_dead(number),
            1 => self.lead(number),
            2 | 3 => self.turn(number),
            4 => self.make_unused(number),
            _ => self.empty(number),
        }
    }

    /// Takes a version away.
    fn empty(&mut self, number: u16) {
        if self.tight {
            self.make_dead(number);
        } else {
            self.make_unused(number);
        }
    }

    /// Whether a version comes now: else a slot is changed.
    fn draws_add(&mut self) -> bool {
        if self.tight {
            self.list.room() >= TIGHT_SIZE
        } else {
            self.draw(2) == 0
        }
    }

    /// Does one change, and says whether the page is then as the list has it.
    fn changes_alike(&mut self) -> bool {
        let alike = match (self.draws_add(), self.draw_slot()) {
            (false, Some(number)) => {
                self.change_slot(number);
                true
            }
            _ => self.add(),
        };
        alike && agrees(&self.page, &self.list)
    }

    /// Reads the page from its own bytes, and says whether it is that. It goes on with it now and then. Where it has a fault it has that of
    /// the list, and the redirect ends.
    fn reads_alike(&mut self) -> bool {
        match check_page(self.page.bytes()) {
            Ok(page) => {
                let alike = self.list.fault().is_none() && agrees(&page, &self.list);
                if self.draw(16) == 0 {
                    self.page = page;
                }
                self.read = self.read.saturating_add(1);
                alike
            }
            Err(PageFault::BadRedirect(number)) => {
                self.faulty = self.faulty.saturating_add(1);
                let as_listed = self.list.fault() == Some(number);
                self.empty(number);
                as_listed
            }
            Err(_) => false,
        }
    }
}

/// The number of the first change after which the page is not as the list has it.
fn first_wrong(pair: &mut Pair) -> Option<u32> {
    for change in 0..CHANGES {
        if !pair.changes_alike() || (change % 2 == 1 && !pair.reads_alike()) {
            return Some(change);
        }
    }
    None
}

/// Goes through the changes, and fails where the page is not as the list has it, or was hardly ever read back.
fn go_through(page: Page, list: SlotList, seed: u64) -> Result<(), Fail> {
    let mut pair = Pair {
        page,
        list,
        rng: Pcg32::new(seed, 1),
        tight: seed % 2 == 1,
        read: 0,
        faulty: 0,
    };
    if let Some(change) = first_wrong(&mut pair) {
        return Err(Fail::new(format_args!("after change {change} of {seed} the page is another")));
    }
    if pair.read < 100 || pair.faulty < 10 {
        return Err(Fail::new(format_args!("{} read back, {} faulty", pair.read, pair.faulty)));
    }
    Ok(())
}

#[test]
fn a_page_is_as_the_list_of_its_slots(rt: HostRuntime) -> Result<(), Fail> {
    for seed in 0..4 {
        let list = SlotList {
            slots: ArrayVec::new(),
            change: 0,
        };
        go_through(Page::new(), list, seed)?;
    }
    Ok(())
}

#[test]
fn so_is_a_page_of_foreign_bytes(rt: HostRuntime) -> Result<(), Fail> {
    for seed in 4..8 {
        let page = check_page(&page_with(&REDIRECTED)).expect(&rt, "the bytes are a page's");
        let mut slots = ArrayVec::new();
        let _ = slots.try_push(Listed::Redirect(2));
        let _ = slots.try_push(Listed::Version(1, 0, true));
        go_through(page, SlotList { slots, change: 1 }, seed)?;
    }
    Ok(())
}

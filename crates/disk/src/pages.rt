//! Bytes in pages, each of which is taken when it is first written.

ghost use Rattle.std.specs.Prelude.{◌≡◌, ◌≤◌, ◌<◌, ◌+◌, ◌-◌, ◌*◌, ◌/◌, ◌++◌, ℕ, [], length, replicate, true, IfOk, OnOk};
ghost use Rattle.disk.specs.Bytes.{put_at, range_at};
ghost use Rattle.disk.specs.Pages.{Keeps, byte_at, bytes_in, bytes_of, has_byte, has_range, page_at, page_size};

use crate::page::{Page, fill_with_zeros};
use std::alloc::{AllocError, Allocator, Global};
use std::marker::Model;

/// How many bytes a page has.
pub const PAGE: usize = 4_096;

/// So many bytes, at first zero. A page is taken when it is first written.
#[derive(Drop)]
pub struct Pages<A: Allocator = Global> {
    alloc: A,
    size: usize,
    pages: Vec<Page<A>, A>,
}

impl<A: Allocator> Model for Pages<A> {
    ghost use Rattle.disk.specs.Pages.{PagesState};

    ghost Value = { PagesState };

    ghost view = { λ p. record { size = p.size; pages = p.pages.items } };
}

impl<A: Allocator + Clone> Pages<A> {
    pub fn new(alloc: A, size: usize) -> Result<Pages<A>, AllocError>
        ensures { IfOk result (λ p. p ≡ record { size = size; pages = [] }) }
    {
        let pages = Vec::new(alloc.clone()?);
        Ok(Pages { alloc, size, pages })
    }

    pub fn len(&self) -> usize
        ensures { result ≡ self.now.size }
    {
        self.size
    }

    // The bytes from a place on.
    pub fn read(&self, at: usize, out: &mut [u8])
        requires { at + length out.old ≤ self.now.size }
        ensures { out.new ≡ range_at (bytes_of self.now) at (length out.old) }
    {
        let count = out.len().min(self.size - at);
        let mut done = 0;
        while done < count {
            let place = (at + done) % PAGE;
            let piece = (PAGE - place).min(count - done);
            read_into(&self.pages, (at + done) / PAGE, place, out, done, piece);
            done += piece;
        }
    }

    // Takes the pages of a range.
    pub fn take(&mut self, at: usize, count: usize) -> Result<(), AllocError>
        requires { at + count ≤ self.old.size }
        ensures same { bytes_of self.new ≡ bytes_of self.old }
        ensures keeps { Keeps self.old self.new }
        ensures taken { OnOk result (has_range self.new.pages at count ≡ true) }
    {
        if count.min(self.size - at) == 0 {
            return Ok(());
        }
        let last = (at + count - 1) / PAGE;
        for index in at / PAGE..last + 1 {
            self.take_page(index)?;
        }
        Ok(())
    }

    fn take_page(&mut self, index: usize) -> Result<(), AllocError>
        requires { index * page_size < self.old.size }
        ensures same { (place : ℕ) → byte_at self.new.pages place ≡ byte_at self.old.pages place }
        ensures keeps { Keeps self.old self.new }
        ensures taken { OnOk result ((place : ℕ) → place / page_size ≡ index → place < self.old.size → has_byte self.new.pages place ≡ true) }
    {
        let count = (self.size - index * PAGE).min(PAGE);
        add_pages(&mut self.pages, &self.alloc, index + 1)?;
        self.pages[index].grow(count)
    }

    // Writes over a range whose pages are there.
    pub fn put(&mut self, at: usize, bytes: &[u8])
        requires room { at + length bytes.now ≤ self.old.size }
        requires taken { has_range self.old.pages at (length bytes.now) ≡ true }
        ensures put { bytes_of self.new ≡ put_at (bytes_of self.old) at bytes.now }
        ensures keeps { Keeps self.old self.new }
    {
        let count = bytes.len().min(self.size - at);
        let mut done = 0;
        while done < count {
            let place = (at + done) % PAGE;
            let piece = (PAGE - place).min(count - done);
            self.put_page((at + done) / PAGE, place, &bytes[done..done + piece]);
            done += piece;
        }
    }

    fn put_page(&mut self, index: usize, place: usize, bytes: &[u8])
        requires taken { place + length bytes.now ≤ length (page_at self.old.pages index) }
        requires within { place + length bytes.now ≤ page_size }
        requires some { 0 < length bytes.now }
        requires room { index * page_size + place + length bytes.now ≤ self.old.size }
        ensures put { bytes_of self.new ≡ put_at (bytes_of self.old) (index * page_size + place) bytes.now }
        ensures keeps { Keeps self.old self.new }
    {
        if index < self.pages.len() {
            self.pages[index].put(place, bytes);
        }
    }

    // Fills a range whose pages are there.
    pub fn fill(&mut self, at: usize, count: usize, byte: u8)
        requires room { at + count ≤ self.old.size }
        requires taken { has_range self.old.pages at count ≡ true }
        ensures put { bytes_of self.new ≡ put_at (bytes_of self.old) at (replicate count byte) }
        ensures keeps { Keeps self.old self.new }
    {
        let all = count.min(self.size - at);
        for done in 0..all {
            self.put(at + done, &[byte]);
        }
    }
}

// Makes the list so long at least, with pages that keep nothing.
fn add_pages<A: Allocator + Clone>(
    pages: &mut Vec<Page<A>, A>,
    alloc: &A,
    count: usize,
) -> Result<(), AllocError>
    ensures items { pages.new.items ≡ pages.old.items ++ replicate (length pages.new.items - length pages.old.items) [] }
    ensures ok { OnOk result (count ≤ length pages.new.items) }
{
    let more = count.saturating_sub(pages.len());
    for _made in 0..more {
        pages.push(Page::new(alloc.clone()?))?;
    }
    Ok(())
}

fn read_into<A: Allocator + Clone>(
    pages: &[Page<A>],
    index: usize,
    place: usize,
    out: &mut [u8],
    from: usize,
    count: usize,
)
    requires { from + count ≤ length out.old }
    ensures { out.new ≡ put_at out.old from (bytes_in (page_at pages.now index) place count) }
{
    read_page(pages, index, place, &mut out[from..from + count]);
}

fn read_page<A: Allocator + Clone>(pages: &[Page<A>], index: usize, place: usize, out: &mut [u8])
    ensures { out.new ≡ bytes_in (page_at pages.now index) place (length out.old) }
{
    match pages.get(index) {
        Some(page) => page.read(place, out),
        None => fill_with_zeros(out),
    }
}

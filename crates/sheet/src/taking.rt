//! Taking a row.
ghost use Rattle.std.specs.Prelude.{◌≡◌, ◌+◌, ◌*◌, ◌<◌, ◌≤◌, length, IfOk, OnErr, OnOk};
ghost use Rattle.figures.specs.Figures.{glyphs};
ghost use Rattle.plane.specs.Refusal.{refused, first};
ghost use Rattle.sheet.specs.Layout.{count, masters, record_length};
ghost use Rattle.sheet.specs.Refusals.{row_refusal, taking_rows};
ghost use Rattle.sheet.specs.Rows.{section_of, row_start, heading_at, row_heading, Taken, RowTaken};

use crate::fault::RowFault;
use crate::header::number_at;
use crate::heading::Heading;
use crate::section::Section;
use crate::window::Sheet;
use figures::{Figure, Head};

// The glyph numbers at the head of a row.
fn heading_at(bytes: &[u8], head: Head, start: usize) -> Heading
    requires { start + 2 * glyphs head ≤ length bytes.now }
    ensures { result ≡ heading_at bytes.now head start }
{
    let first = number_at(bytes, start);
    match head {
        Head::Glyph => Heading::Glyph(first),
        Head::Pair => Heading::Pair(first, number_at(bytes, start + 2)),
    }
}

// Takes the figures that stand from a place on into the first n places of the buffer.
fn take_figures<F: Figure>(bytes: &[u8], place: usize, n: usize, buffer: &mut [F])
    requires room { n ≤ length buffer.old }
    requires within { place + n * F.BYTES ≤ length bytes.now }
    ensures { Taken F.number F.meant F.BYTES bytes.now place n
        buffer.old buffer.new }
{
    // not by chunks: a kind says what the bytes from a place on mean, and not what a piece of them does
    for (i, figure) in buffer[..n].iter_mut().enumerate() {
        *figure = F::unpack(&bytes[place + i * F::BYTES..]);
    }
}

impl<'a> Sheet<'a> {
    // How many masters the family has, the four corners included.
    fn masters(&self) -> usize
        ensures { result ≡ masters self.now.bytes.now }
    {
        self.header().masters()
    }

    // Where row k of a section starts. That the row is there is tested once, in `row`.
    fn row_start(&self, section: Section, k: usize) -> usize
        requires { k < count self.now.bytes.now section }
        ensures value { result ≡ row_start self.now.bytes.now section k }
        ensures within { result + record_length self.now.bytes.now section ≤ length self.now.bytes.now }
    {
        let header = self.header();
        usize::from(header.entry(section).offset) + k * header.lawful_length(section)
    }

    // Takes row k of a kind into a buffer that has room for it, and answers its glyph numbers.
    fn take_row<F: Figure>(&self, k: usize, figures: &mut [F]) -> Heading
        requires counted { k < count self.now.bytes.now (section_of F.HEAD) }
        requires room { masters self.now.bytes.now ≤ length figures.old }
        ensures heading { result ≡ row_heading F.HEAD self.now.bytes.now k }
        ensures taken { RowTaken F.number F.meant F.BYTES F.HEAD self.now.bytes.now k
            figures.old figures.new }
    {
        let start = self.row_start(F::HEAD.into(), k);
        let place = start + 2 * F::HEAD.glyphs();
        take_figures(self.bytes, place, self.masters(), figures);
        heading_at(self.bytes, F::HEAD, start)
    }

    // Puts the figures of row k into the caller's buffer, since there is no heap, from its first place on, one for each master,
    // and answers the row's glyph numbers; else says why not, and leaves the buffer.
    pub fn row<F: Figure>(&self, k: usize, figures: &mut [F]) -> Result<Heading, RowFault>
        ensures refuses { refused row_refusal result
            ≡ first (taking_rows self.now.bytes.now (section_of F.HEAD) k
            (length figures.old)) }
        ensures heading { IfOk result (λ h. h ≡ row_heading F.HEAD self.now.bytes.now k) }
        ensures taken { OnOk result (RowTaken F.number F.meant F.BYTES F.HEAD self.now.bytes.now k
            figures.old figures.new) }
        ensures untouched { OnErr result (figures.new ≡ figures.old) }
    {
        if k >= self.count(F::HEAD.into()) {
            return Err(RowFault::NoSuchRow);
        }
        if figures.len() < self.masters() {
            return Err(RowFault::ShortBuffer);
        }
        Ok(self.take_row(k, figures))
    }
}

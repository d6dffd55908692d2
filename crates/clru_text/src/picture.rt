//! The drawing of a picture, in SVG.
ghost use Rattle.std.specs.Prelude.{◌≡◌, IfOk, string_bytes};
ghost use Rattle.clru_text.specs.Pictures.{HasTable, picture_head};

mod axes;
mod curve;
mod legend;
mod marks;
mod numbers;
mod plot;
mod scale;
mod style;
mod words;

use crate::options::Look;
use axes::draw_axes;
use curve::{draw_floor, draw_least, draw_line};
use legend::draw_legend;
use marks::draw_marks;
pub use plot::{Plot, PlotLine};
use scale::Scale;
use std::alloc::{AllocError, Allocator};
use std::fmt::{self, Write};
pub use style::STYLE;

/// Returns the picture, with the table in its description. It fails if memory is refused. Neither the table nor names and classes of
/// the plot are escaped: a `&` or `<` in them would end the picture early.
/// Cost: a step for each step and mark of a line, and for each byte of the table; it asks for memory as the text grows.
pub fn picture_of<A: Allocator + Copy>(
    alloc: A,
    plot: &Plot<A>,
    look: &Look<A>,
    table: &str,
) -> Result<String<A>, AllocError>
    ensures { IfOk result (λ text. HasTable table.now (string_bytes text)) }
{
    let drawn = drawn_of(alloc, plot, look)?;
    let begin = head(alloc)?;
    format!(in alloc; "{begin}{table}</desc>\n{drawn}</svg>\n")
}

fn head<A: Allocator>(alloc: A) -> Result<String<A>, AllocError>
    ensures { IfOk result (λ text. string_bytes text ≡ picture_head) }
{
    let mut text = String::new(alloc);
    text.push_str("<svg class=\"clru_mrc\" xmlns=\"http://www.w3.org/2000/svg\" role=\"img\"")?;
    text.push_str(" viewBox=\"0 0 8000 4600\" width=\"800\" height=\"460\">\n")?;
    text.push_str("<title>Miss ratio by capacity</title>\n<desc>\n")?;
    Ok(text)
}

fn drawn_of<A: Allocator>(
    alloc: A,
    plot: &Plot<A>,
    look: &Look<A>,
) -> Result<String<A>, AllocError> {
    let mut text = String::new(alloc);
    match draw(&mut text, plot, look) {
        Ok(()) => Ok(text),
        Err(_) => Err(AllocError),
    }
}

fn draw<W: Write, A: Allocator>(text: &mut W, plot: &Plot<A>, look: &Look<A>) -> fmt::Result {
    text.write_str(STYLE)?;
    text.write_str("<rect class=\"page\" width=\"8000\" height=\"4600\"/>\n")?;
    draw_legend(text, plot, look)?;
    let (first, last) = plot.ends;
    let scale = Scale::new(first, last);
    draw_axes(text, &scale, plot.unit, look)?;
    for line in plot.lines.iter() {
        draw_floor(text, line)?;
    }
    if let Some(line) = &plot.below {
        draw_line(text, &scale, line)?;
    }
    for line in plot.lines.iter() {
        draw_line(text, &scale, line)?;
    }
    draw_least(text, &scale, plot)?;
    let lines = plot.lines.len() as u128;
    for (index, line) in plot.lines.iter().enumerate() {
        draw_marks(text, &scale, line, index == 0, lines)?;
    }
    Ok(())
}

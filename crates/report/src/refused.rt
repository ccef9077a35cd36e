// The page of a table that is refused: its number and place in words, and the bytes around it with the bit marked.
use page::Sheet;
use refusals::Fault;
use std::io;

// How many bytes are shown, the one of the place in their middle.
const SHOWN: usize = 17;

// A byte of the image, marked where it is the one.
fn shown(sheet: &mut Sheet, b: u8, marked: bool) -> io::Result<()> {
    sheet.put(b" ")?;
    if marked {
        sheet.put(b"<mark>")?;
    }
    sheet.byte(b)?;
    if marked {
        sheet.put(b"</mark>")?;
    }
    Ok(())
}

// The bytes around the byte with that number.
fn around(sheet: &mut Sheet, image: &[u8], at: usize) -> io::Result<()> {
    let from = at.saturating_sub(SHOWN / 2);
    sheet.fill(b"<p>From byte @ on: <span class='hex'>", &[from as u64])?;
    for (i, b) in image.iter().enumerate().skip(from).take(SHOWN) {
        shown(sheet, *b, i == at)?;
    }
    if image.len() <= at {
        sheet.put(b" <mark>end of the image</mark>")?;
    }
    sheet.put(b"</span></p>\n")
}

fn bit(sheet: &mut Sheet, set: bool, marked: bool) -> io::Result<()> {
    if marked {
        sheet.put(b"<mark>")?;
    }
    sheet.put(if set { b"1" } else { b"0" })?;
    if marked {
        sheet.put(b"</mark>")?;
    }
    Ok(())
}

// The bits of the byte that holds the place.
fn bits(sheet: &mut Sheet, b: u8, at: usize) -> io::Result<()> {
    sheet.fill(
        b"<p>Byte @, bit by bit, the most significant first: <span class='bits'>",
        &[(at / 8) as u64],
    )?;
    for i in 0..8 {
        bit(sheet, b >> (7 - i) & 1 == 1, i == at % 8)?;
    }
    sheet.put(b"</span></p>\n")
}

// The refusal in words comes from the words of the desk, so what is laid so far is written first.
pub(crate) fn place(sheet: &mut Sheet, image: &[u8], fault: Fault) -> io::Result<()> {
    let at = fault.place;
    sheet.put(
        b"</dl>\n<p class='verdict open'>&#9650; The table is refused: nothing is known of its tasks.</p>\n<p>",
    )?;
    sheet.flush()?;
    output::refused(&mut sheet.out, image, fault)?;
    sheet.put(b"</p>\n")?;
    around(sheet, image, at / 8)?;
    match image.get(at / 8) {
        Some(b) => bits(sheet, *b, at),
        None => Ok(()),
    }
}

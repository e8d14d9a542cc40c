//! A drawing as text.

ghost use Rattle.std.specs.Prelude.{◌≡◌, ◌++◌, ◌∷◌, IfOk, OnOk, codes, flat_map};
ghost use Rattle.std.specs.String.{string_bytes};
ghost use Rattle.nob_drawing.specs.Writing as spec;

use crate::shape::{Point, Shape, Style};
use std::alloc::{AllocError, Global};

/// How the shapes of each style look, the head of an arrow, and what the colours of bars and of
/// entries mean.
pub const LOOKS: &[u8] = b"<style>
svg { background: #fff; font-family: monospace; font-size: 11px; }
rect { stroke: none; }
.page { fill: #fff; }
.title { font-size: 14px; font-weight: bold; }
.life { stroke: #555; stroke-width: 1.5; }
.guide { stroke: #ddd; stroke-width: 0.7; }
.name { font-size: 14px; font-weight: bold; text-anchor: middle; }
.number { fill: #999; text-anchor: end; }
.gloss { fill: #888; }
.answered { fill: #222; }
.refused { fill: #b06000; }
rect.refused { fill: #fff; stroke: #b06000; stroke-width: 1.5; }
.closing { fill: #8000a0; font-weight: bold; }
rect.closing { stroke: #8000a0; stroke-width: 5; stroke-dasharray: 3; stroke-dashoffset: -1.5; }
.fault { fill: #d00000; font-weight: bold; }
rect.fault { stroke: #d00000; stroke-width: 6; }
.sent { stroke: #1c4f9c; stroke-width: 1.6; marker-end: url(#head); }
.took-nothing { stroke: #b4b4b4; marker-end: url(#grey); }
.part { stroke-dasharray: 2 3; }
.open { stroke-dasharray: 2 3; marker-end: none; }
.lost { stroke: #1c4f9c; stroke-width: 1.6; }
.again { stroke-width: 0.7; }
.cross { stroke: #d00000; stroke-width: 1.6; }
.stray { stroke: #d00000; marker-end: url(#red); }
.void { stroke: #d00000; stroke-width: 2.4; }
.live { fill: #a9d8a0; }
.listed { fill: url(#hatched); }
.pinned { fill: url(#striped); }
.held { font-size: 8px; fill: #000; paint-order: stroke; stroke: #fff; stroke-width: 3px; stroke-opacity: 0.8; stroke-linejoin: round; }
.words { fill: #1c4f9c; paint-order: stroke; stroke: #fff; stroke-width: 8px; stroke-linejoin: round; word-spacing: -2px; }
.before { text-anchor: end; }
</style>
<defs>
<marker id='head' markerWidth='8' markerHeight='8' refX='7' refY='3' orient='auto' markerUnits='userSpaceOnUse'><path d='M0,0 L7,3 L0,6 z' fill='#1c4f9c'/></marker>
<marker id='grey' markerWidth='8' markerHeight='8' refX='7' refY='3' orient='auto' markerUnits='userSpaceOnUse'><path d='M0,0 L7,3 L0,6 z' fill='#b4b4b4'/></marker>
<marker id='red' markerWidth='8' markerHeight='8' refX='7' refY='3' orient='auto' markerUnits='userSpaceOnUse'><path d='M0,0 L7,3 L0,6 z' fill='#d00000'/></marker>
<pattern id='hatched' width='6' height='6' patternUnits='userSpaceOnUse' patternTransform='rotate(45)'><rect width='6' height='6' fill='#a6cdf0'/><rect width='1.5' height='6' fill='#5a95cf'/></pattern>
<pattern id='striped' width='6' height='5' patternUnits='userSpaceOnUse'><rect width='6' height='5' fill='#f4c98a'/><rect width='6' height='1.5' fill='#d99a3d'/></pattern>
</defs>
<rect class='page' width='100%' height='100%'/>
<rect class='live' x='12' y='52' width='9' height='12'/><text x='26' y='62'>an object is live</text>
<rect class='listed' x='160' y='52' width='9' height='12'/><text x='174' y='62'>a client is listed</text>
<rect class='pinned' x='314' y='52' width='9' height='12'/><text x='328' y='62'>a reference is pinned</text>
<rect class='refused' x='12' y='76' width='6' height='6'/><text class='refused' x='24' y='82'>refused</text>
<rect class='closing' x='82' y='76' width='6' height='6'/><text class='closing' x='96' y='82'>closes a session</text>
<rect class='fault' x='214' y='76' width='6' height='6'/><text class='fault' x='228' y='82'>wrong</text>
<text class='words' x='274' y='82'>thin: given before, grey: took nothing, dotted: in part, cross: lost, red: from nowhere</text>
";

// The name of a style.
fn class_name(style: Style) -> &'static str
    ensures { result.now ≡ spec.class_name style }
{
    match style {
        Style::Life => "life",
        Style::Guide => "guide",
        Style::Name => "name",
        Style::Number => "number",
        Style::Title => "title",
        Style::Shown => "shown",
        Style::Gloss => "gloss",
        Style::Answered => "answered",
        Style::Refused => "refused",
        Style::Closing => "closing",
        Style::Fault => "fault",
        Style::Sent => "sent",
        Style::Again => "sent again",
        Style::TookNothing => "sent took-nothing",
        Style::TookNothingAgain => "sent took-nothing again",
        Style::Part => "sent part",
        Style::PartTookNothing => "sent took-nothing part",
        Style::Open => "sent open",
        Style::OpenTookNothing => "sent took-nothing open",
        Style::Lost => "lost",
        Style::LostAgain => "lost again",
        Style::Cross => "cross",
        Style::Stray => "sent stray",
        Style::Void => "void",
        Style::Live => "live",
        Style::Listed => "listed",
        Style::Pinned => "pinned",
        Style::Held => "held",
        Style::Before => "words before",
        Style::Behind => "words",
    }
}

// Puts a byte of a text behind another text.
fn put_byte(text: &mut Vec<u8>, byte: u8) -> Result<(), AllocError>
    ensures { OnOk result (text.new.items ≡ text.old.items ++ spec.escaped_byte byte) }
{
    match byte {
        b'&' => text.extend_from_slice(b"&amp;")?,
        b'<' => text.extend_from_slice(b"&lt;")?,
        b'>' => text.extend_from_slice(b"&gt;")?,
        _ => text.push(byte)?,
    }
    Ok(())
}

// Puts a text behind another.
fn put_escaped(text: &mut Vec<u8>, words: &[u8]) -> Result<(), AllocError>
    ensures { OnOk result (text.new.items ≡ text.old.items ++ spec.escaped words.now) }
{
    for byte in words {
        put_byte(text, *byte)?;
    }
    Ok(())
}

// The text of a line.
fn line_text(alloc: Global, style: Style, from: Point, to: Point) -> Result<String, AllocError>
    ensures { IfOk result (λ text. string_bytes text ≡ spec.line_text style from to) }
{
    let class = class_name(style);
    let x = from.x;
    let y = from.y;
    let end = to.x;
    let bottom = to.y;
    format!(in alloc; "<line class='{class}' x1='{x}' y1='{y}' x2='{end}' y2='{bottom}'/>\n")
}

// The text of a box.
fn rectangle_text(
    alloc: Global,
    style: Style,
    corner: Point,
    width: u128,
    height: u128,
) -> Result<String, AllocError>
    ensures { IfOk result (λ text. string_bytes text
        ≡ spec.rectangle_text style corner width height) }
{
    let class = class_name(style);
    let x = corner.x;
    let y = corner.y;
    format!(in alloc; "<rect class='{class}' x='{x}' y='{y}' width='{width}' height='{height}'/>\n")
}

// What stands before the words of a box that has some.
fn titled_start(
    alloc: Global,
    style: Style,
    corner: Point,
    width: u128,
    height: u128,
) -> Result<String, AllocError>
    ensures { IfOk result (λ text. string_bytes text
        ≡ spec.titled_start style corner width height) }
{
    let class = class_name(style);
    let x = corner.x;
    let y = corner.y;
    format!(in alloc;
        "<rect class='{class}' x='{x}' y='{y}' width='{width}' height='{height}'><title>"
    )
}

// What stands before a text.
fn text_start(alloc: Global, style: Style, at: Point) -> Result<String, AllocError>
    ensures { IfOk result (λ text. string_bytes text ≡ spec.text_start style at) }
{
    let class = class_name(style);
    let x = at.x;
    let y = at.y;
    format!(in alloc; "<text class='{class}' x='{x}' y='{y}'>")
}

// What stands before a text with a note, up to the note.
fn noted_start(alloc: Global, style: Style, at: Point) -> Result<String, AllocError>
    ensures { IfOk result (λ text. string_bytes text ≡ spec.noted_start style at) }
{
    let class = class_name(style);
    let x = at.x;
    let y = at.y;
    format!(in alloc; "<text class='{class}' x='{x}' y='{y}' data-lives='")
}

// What stands before a text that goes downwards.
fn turned_start(alloc: Global, style: Style, at: Point) -> Result<String, AllocError>
    ensures { IfOk result (λ text. string_bytes text ≡ spec.turned_start style at) }
{
    let class = class_name(style);
    let x = at.x;
    let y = at.y;
    format!(in alloc; "<text class='{class}' transform='translate({x} {y}) rotate(90)'>")
}

// Puts a text with what stands before and behind it.
fn put_words(text: &mut Vec<u8>, start: &[u8], words: &[u8]) -> Result<(), AllocError>
    ensures { OnOk result (text.new.items
        ≡ text.old.items ++ (start.now ++ (spec.escaped words.now ++ codes "</text>\n"))) }
{
    text.extend_from_slice(start)?;
    put_escaped(text, words)?;
    text.extend_from_slice(b"</text>\n")?;
    Ok(())
}

// Puts a text with its note, and with what stands before and behind them.
fn put_noted(text: &mut Vec<u8>, start: &[u8], note: &[u8], words: &[u8]) -> Result<(), AllocError>
    ensures { OnOk result (text.new.items ≡ text.old.items ++ (start.now
        ++ (spec.escaped note.now ++ (codes "'>"
        ++ (spec.escaped words.now ++ codes "</text>\n"))))) }
{
    text.extend_from_slice(start)?;
    put_escaped(text, note)?;
    put_words(text, b"'>", words)
}

// Puts a box with its words behind a text.
fn put_titled(text: &mut Vec<u8>, start: &[u8], words: &[u8]) -> Result<(), AllocError>
    ensures { OnOk result (text.new.items
        ≡ text.old.items ++ (start.now ++ (spec.escaped words.now ++ codes "</title></rect>\n"))) }
{
    text.extend_from_slice(start)?;
    put_escaped(text, words)?;
    text.extend_from_slice(b"</title></rect>\n")?;
    Ok(())
}

// Puts a shape behind a text.
fn put_shape(alloc: Global, text: &mut Vec<u8>, shape: &Shape) -> Result<(), AllocError>
    ensures { OnOk result (text.new.items ≡ text.old.items ++ spec.shape_text shape.now) }
{
    match shape {
        Shape::Line(style, from, to) => {
            let line = line_text(alloc, *style, *from, *to)?;
            text.extend_from_slice(line.as_bytes())?;
            Ok(())
        }
        Shape::Rectangle(style, corner, width, height) => {
            let rectangle = rectangle_text(alloc, *style, *corner, *width, *height)?;
            text.extend_from_slice(rectangle.as_bytes())?;
            Ok(())
        }
        Shape::Titled(style, corner, width, height, words) => {
            let start = titled_start(alloc, *style, *corner, *width, *height)?;
            put_titled(text, start.as_bytes(), words.as_slice())
        }
        Shape::Text(style, at, words) => {
            let start = text_start(alloc, *style, *at)?;
            put_words(text, start.as_bytes(), words.as_slice())
        }
        Shape::Noted(style, at, note, words) => {
            let start = noted_start(alloc, *style, *at)?;
            put_noted(text, start.as_bytes(), note.as_slice(), words.as_slice())
        }
        Shape::Turned(style, at, words) => {
            let start = turned_start(alloc, *style, *at)?;
            put_words(text, start.as_bytes(), words.as_slice())
        }
    }
}

// Puts shapes behind a text.
fn put_shapes(alloc: Global, text: &mut Vec<u8>, shapes: &[Shape]) -> Result<(), AllocError>
    ensures { OnOk result (text.new.items
        ≡ text.old.items ++ flat_map spec.shape_text shapes.now) }
{
    for shape in shapes {
        put_shape(alloc, text, shape)?;
    }
    Ok(())
}

// The first line.
fn head_text(alloc: Global, width: u128, height: u128) -> Result<String, AllocError>
    ensures { IfOk result (λ text. string_bytes text ≡ spec.head_text width height) }
{
    format!(in alloc;
        "<svg xmlns='http://www.w3.org/2000/svg' width='{width}' height='{height}' viewBox='0 0 {width} {height}'>\n"
    )
}

/// The text of a drawing so wide and so high as SVG, for which nothing outside is needed. Linear in
/// it.
pub fn svg_text(
    alloc: Global,
    width: u128,
    height: u128,
    shapes: &[Shape],
) -> Result<Vec<u8>, AllocError>
    ensures { IfOk result (λ text. text.items ≡ spec.svg_text width height shapes.now) }
{
    let head = head_text(alloc, width, height)?;
    let mut text = head.into_bytes();
    text.extend_from_slice(LOOKS)?;
    put_shapes(alloc, &mut text, shapes)?;
    text.extend_from_slice(b"</svg>\n")?;
    Ok(text)
}

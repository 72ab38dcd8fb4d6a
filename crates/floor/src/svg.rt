// Shapes of an SVG picture, each written as one element. All coordinates are whole numbers.
ghost use Rattle.std.specs.Prelude.{◌≤◌};

use std::fmt;

#[derive(Clone, Copy)]
pub enum Colour {
    Ink,
    Shade,
    Faint,
    White,
    Red,
    Green,
    Amber,
    // of the slots of a place
    Pale(u8),
    // of its bursts
    Deep(u8),
}

// How much of a colour there is so many degrees round the colour wheel from it.
fn strength(turn: u16) -> u8
    ensures { result ≤ 60 }
{
    (turn.abs_diff(180).clamp(60, 120) - 60) as u8
}

// The strengths of red, green and blue of a place: neighbours are 137 degrees apart.
fn strengths(place: u8) -> [u8; 3] {
    let turn = u16::from(place) * 137 % 360;
    [turn, turn + 240, turn + 120].map(|turn| strength(turn % 360))
}

impl Colour {
    // Its red, green and blue.
    fn parts(self) -> [u8; 3] {
        match self {
            Colour::Ink => [40, 40, 40],
            Colour::Shade => [205, 205, 205],
            Colour::Faint => [240, 240, 240],
            Colour::White => [255, 255, 255],
            Colour::Red => [210, 30, 30],
            Colour::Green => [110, 190, 110],
            Colour::Amber => [245, 205, 90],
            Colour::Pale(place) => strengths(place).map(|strength| strength.saturating_add(180)),
            Colour::Deep(place) => strengths(place).map(|strength| strength
                .saturating_mul(2)
                .saturating_add(50)),
        }
    }
}

impl fmt::Display for Colour {
    fn fmt<W: fmt::Write>(&self, f: &mut fmt::Formatter<W>) -> fmt::Result {
        let [red, green, blue] = self.parts();
        write!(f, "#{red:02x}{green:02x}{blue:02x}")
    }
}

#[derive(Clone, Copy)]
pub enum Paint {
    Filled(Colour),
    Outlined(Colour),
}

impl fmt::Display for Paint {
    fn fmt<W: fmt::Write>(&self, f: &mut fmt::Formatter<W>) -> fmt::Result {
        match self {
            Paint::Filled(colour) => write!(f, "fill=\"{colour}\""),
            Paint::Outlined(colour) => write!(f, "fill=\"none\" stroke=\"{colour}\""),
        }
    }
}

#[derive(Clone, Copy)]
pub struct Rect {
    pub x: u64,
    pub y: u64,
    pub width: u64,
    pub height: u64,
    pub paint: Paint,
}

impl Rect {
    // The same so far right and so far down.
    fn moved(self, right: u64, down: u64) -> Rect {
        Rect {
            x: self.x.saturating_add(right),
            y: self.y.saturating_add(down),
            ..self
        }
    }
}

impl fmt::Display for Rect {
    fn fmt<W: fmt::Write>(&self, f: &mut fmt::Formatter<W>) -> fmt::Result {
        let Rect {
            x,
            y,
            width,
            height,
            paint,
        } = *self;
        writeln!(
            f,
            "<rect x=\"{x}\" y=\"{y}\" width=\"{width}\" height=\"{height}\" {paint}/>"
        )
    }
}

// Words or a number at a point; there is nothing to escape in them.
#[derive(Clone, Copy)]
pub struct Label<T> {
    pub x: u64,
    pub y: u64,
    pub text: T,
}

impl<T: fmt::Display> fmt::Display for Label<T> {
    fn fmt<W: fmt::Write>(&self, f: &mut fmt::Formatter<W>) -> fmt::Result {
        let (x, y, text) = (self.x, self.y, &self.text);
        writeln!(f, "<text x=\"{x}\" y=\"{y}\">{text}</text>")
    }
}

// The head of a picture: its size and its paper.
#[derive(Clone, Copy)]
pub struct Paper {
    pub width: u64,
    pub height: u64,
}

impl fmt::Display for Paper {
    fn fmt<W: fmt::Write>(&self, f: &mut fmt::Formatter<W>) -> fmt::Result {
        let Paper { width, height } = *self;
        let paper = Rect {
            x: 0,
            y: 0,
            width,
            height,
            paint: Paint::Filled(Colour::White),
        };
        f.write_str("<svg xmlns=\"http://www.w3.org/2000/svg\" ")?;
        writeln!(
            f,
            "viewBox=\"0 0 {width} {height}\" font-family=\"sans-serif\" font-size=\"11\">"
        )?;
        write!(f, "{paper}")
    }
}

// The end of a picture.
pub const END: &str = "</svg>";

// Begins a group that stands so far down, its words centred.
#[derive(Clone, Copy)]
pub struct Centred(pub u64);

impl fmt::Display for Centred {
    fn fmt<W: fmt::Write>(&self, f: &mut fmt::Formatter<W>) -> fmt::Result {
        let top = self.0;
        writeln!(
            f,
            "<g transform=\"translate(0,{top})\" text-anchor=\"middle\">"
        )
    }
}

// The end of a group.
pub const GROUP_END: &str = "</g>\n";

// One thing of a legend.
#[derive(Clone, Copy)]
pub struct Key {
    pub x: u64,
    pub y: u64,
    // from there on
    pub sign: Rect,
    pub meaning: &'static str,
}

impl fmt::Display for Key {
    fn fmt<W: fmt::Write>(&self, f: &mut fmt::Formatter<W>) -> fmt::Result {
        let sign = self.sign.moved(self.x, self.y);
        let label = Label {
            x: self.x.saturating_add(34),
            y: self.y.saturating_add(16),
            text: self.meaning,
        };
        write!(f, "{sign}{label}")
    }
}

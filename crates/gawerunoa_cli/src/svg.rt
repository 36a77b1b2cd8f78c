//! The path of a check as a picture: plain text in SVG, the root at its top.

use crate::inspect::path::{Part, Path, Piece, Step};
use std::alloc::{AllocError, Global};

/// The width and the height of a box.
const WIDTH: usize = 240;

const HEIGHT: usize = 44;

/// How far apart the tops of rows are, and the space over the first.
const PITCH: usize = 72;

const SPACE: usize = 8;

/// The middles of the columns.
const LEFT: usize = 130;

const MIDDLE: usize = 410;

const RIGHT: usize = 690;

/// Where a line goes up between two columns.
const LEFT_GAP: usize = 270;

const RIGHT_GAP: usize = 550;

const STYLE: &str = "\
rect{stroke:#c9d1d9}.claimed{fill:#fff1cc}.given{fill:#e8edf3}.made{fill:#dcebff}.trusted{fill:#ffffff}
path{fill:none;stroke:#59636e}text{fill:#1b1f24;font:13px system-ui,sans-serif;text-anchor:middle}
text.digest{fill:#59636e;font:12px ui-monospace,monospace}";

/// What stands where the path begins.
#[derive(Drop)]
pub(crate) struct Beginning {
    /// What is claimed.
    pub claimed: &'static str,
    /// What of the proof stands between that and the leaf.
    pub between: Option<Piece>,
    /// What of the proof stands beside it.
    pub beside: Option<Piece>,
}

impl Beginning {
    /// Returns where the path from what is claimed begins, with nothing of the proof beside it.
    pub fn of(claimed: &'static str) -> Self {
        Beginning {
            claimed,
            between: None,
            beside: None,
        }
    }
}

/// What a box has.
#[derive(Clone, Copy)]
enum Kind {
    /// What is claimed.
    Claimed,
    /// What the proof has.
    Given,
    /// A digest that the check makes.
    Made,
    /// The root.
    Trusted,
}

impl Kind {
    /// Returns its class in the style.
    fn class(self) -> &'static str {
        match self {
            Kind::Claimed => "claimed",
            Kind::Given => "given",
            Kind::Made => "made",
            Kind::Trusted => "trusted",
        }
    }
}

/// A picture that grows downwards.
#[derive(Drop)]
struct Picture {
    alloc: Global,
    lines: String,
    boxes: String,
    /// The top of the next row.
    top: usize,
}

/// Returns the picture of `path`.
pub(crate) fn drawn(
    alloc: Global,
    path: &Path,
    beginning: &Beginning,
) -> Result<String, AllocError> {
    let mut picture = Picture {
        alloc,
        lines: String::new(alloc),
        boxes: String::new(alloc),
        top: SPACE,
    };
    let mut kind = Kind::Trusted;
    for (index, step) in path.steps.iter().enumerate().rev() {
        picture.middle(kind, step.name, step.detail.as_str())?;
        let beside = match &beginning.beside {
            Some(beside) if index == 0 => Some(beside),
            _ => None,
        };
        picture.sides(step, beside)?;
        kind = Kind::Made;
    }
    if let Some(between) = &beginning.between {
        picture.middle(Kind::Given, between.name.as_str(), between.detail.as_str())?;
        picture.down(1)?;
    }
    picture.middle(Kind::Claimed, beginning.claimed, "")?;
    picture.whole()
}

impl Picture {
    /// Draws the box of this row's middle.
    fn middle(&mut self, kind: Kind, name: &str, detail: &str) -> Result<(), AllocError> {
        self.draw(MIDDLE, self.top, kind, name, detail)
    }

    /// Draws what stands on the two sides below this row, `beside` on the right, and the line down to the next row.
    fn sides(&mut self, step: &Step, beside: Option<&Piece>) -> Result<(), AllocError> {
        let (mut lefts, mut rights) = (0usize, 0usize);
        let mut is_left = true;
        for part in &step.parts {
            let rows = if is_left { &mut lefts } else { &mut rights };
            match part {
                Part::Before => is_left = false,
                Part::Piece(piece) => {
                    *rows = rows.saturating_add(1);
                    let row = *rows;
                    self.side(is_left, row, piece.name.as_str(), piece.detail.as_str())?;
                }
                Part::Counts(leaves, inactive) => {
                    *rows = rows.saturating_add(1);
                    let row = *rows;
                    let name = format!(in self.alloc; "leaves: {leaves}")?;
                    let detail = format!(in self.alloc; "inactive peaks: {inactive}")?;
                    self.side(is_left, row, name.as_str(), detail.as_str())?;
                }
                Part::Number(_) | Part::Family(_) => {}
            }
        }
        if let Some(beside) = beside {
            rights = rights.saturating_add(1);
            self.side(false, rights, beside.name.as_str(), beside.detail.as_str())?;
        }
        self.down(lefts.max(rights).max(1))
    }

    /// Draws a box `row` rows below, on the left or the right, and the line from it to this row's middle.
    fn side(
        &mut self,
        is_left: bool,
        row: usize,
        name: &str,
        detail: &str,
    ) -> Result<(), AllocError> {
        let (column, gap) = if is_left {
            (LEFT, LEFT_GAP)
        } else {
            (RIGHT, RIGHT_GAP)
        };
        let top = self.top.saturating_add(row.saturating_mul(PITCH));
        let (from, to) = (top.saturating_add(12), self.top.saturating_add(HEIGHT - 12));
        let line = format!(in self.alloc; "M{column} {from}H{gap}V{to}H{MIDDLE}")?;
        self.lines.push_str(line.as_str())?;
        self.draw(column, top, Kind::Given, name, detail)
    }

    /// Draws the line from this row's middle to the one `rows` rows below, which is the next.
    fn down(&mut self, rows: usize) -> Result<(), AllocError> {
        let from = self.top.saturating_add(HEIGHT);
        self.top = self.top.saturating_add(rows.saturating_mul(PITCH));
        let to = self.top;
        let line = format!(in self.alloc; "M{MIDDLE} {from}V{to}")?;
        self.lines.push_str(line.as_str())
    }

    /// Draws a box.
    fn draw(
        &mut self,
        middle: usize,
        top: usize,
        kind: Kind,
        name: &str,
        detail: &str,
    ) -> Result<(), AllocError> {
        let class = kind.class();
        let x = middle.saturating_sub(WIDTH / 2);
        let line = top.saturating_add(if detail.is_empty() { 27 } else { 18 });
        let text = format!(in self.alloc;
            "<rect class=\"{class}\" x=\"{x}\" y=\"{top}\" width=\"{WIDTH}\" height=\"{HEIGHT}\" rx=\"6\"/>\n<text x=\"{middle}\" y=\"{line}\">{name}</text>\n"
        )?;
        self.boxes.push_str(text.as_str())?;
        if detail.is_empty() {
            return Ok(());
        }
        let line = top.saturating_add(36);
        let text = format!(in self.alloc;
            "<text class=\"digest\" x=\"{middle}\" y=\"{line}\">{detail}</text>\n"
        )?;
        self.boxes.push_str(text.as_str())
    }

    /// Returns the whole picture, whose last row is this one.
    fn whole(self) -> Result<String, AllocError> {
        let Picture {
            alloc,
            lines,
            boxes,
            top,
        } = self;
        let (width, height) = (MIDDLE * 2, top.saturating_add(HEIGHT + SPACE));
        format!(in alloc;
            "<svg xmlns=\"http://www.w3.org/2000/svg\" viewBox=\"0 0 {width} {height}\" width=\"{width}\" height=\"{height}\">\n<title>The path from what is claimed up to the root</title>\n<style>{STYLE}</style>\n<path d=\"{lines}\"/>\n{boxes}</svg>\n"
        )
    }
}

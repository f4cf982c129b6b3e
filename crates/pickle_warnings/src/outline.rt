//! The fields of a declaration, and the heads of the structs and unions that they are in.

use pickle_source::anatomy::{FieldParts, field_parts};
use pickle_source::script::{Script, TokenRange};
use std::alloc::{AllocError, Global};

/// A field with its `;`, or the head of a struct or union with its `{`.
#[derive(Clone, Copy)]
pub struct Piece {
    pub part: TokenRange,
    /// The name of the field. No token if it has none.
    pub name: Option<usize>,
    /// In how many structs and unions of the declaration it is.
    pub open: usize,
    /// Whether it is the head of a struct or union.
    pub head: bool,
    /// Whether it has braces.
    braced: bool,
}

/// A struct or union that isn't closed yet.
#[derive(Clone, Copy)]
struct Level {
    /// The first token of the field that begins in it.
    first: usize,
    /// The token after the last `}` in that field, or its first token.
    closed: usize,
}

/// The pieces of a declaration, in the order in which they end.
#[derive(Drop)]
pub struct Outline {
    pub pieces: Vec<Piece>,
}

impl Outline {
    /// The pieces among some tokens, the first of which begins a type.
    pub fn of(alloc: Global, script: &Script<'_>, form: TokenRange) -> Result<Outline, AllocError> {
        let mut outline = Outline {
            pieces: Vec::new(alloc),
        };
        let mut levels = Vec::new(alloc);
        levels.push(Level::from(form.first))?;
        for token in form.first..form.end {
            match script.text(token) {
                b"{" => outline.open(&mut levels, token)?,
                b"}" => close(&mut levels, token),
                b";" => outline.end_field(script, &mut levels, token)?,
                _ => {}
            }
        }
        Ok(outline)
    }

    /// The fields, and the heads of structs and unions, that are before a token and seen there, the last one first.
    pub fn before(&self, alloc: Global, token: usize) -> Result<Vec<Piece>, AllocError> {
        let mut seen = Vec::new(alloc);
        let mut level = None;
        for piece in self.pieces.iter().rev() {
            let here = level.unwrap_or(piece.level_behind());
            if piece.part.end <= token && piece.level_behind() == here {
                level = Some(piece.open);
                seen.push(*piece)?;
            }
        }
        Ok(seen)
    }

    /// Adds the head that ends with a `{`.
    fn open(&mut self, levels: &mut Vec<Level>, brace: usize) -> Result<(), AllocError> {
        let first = match levels.last() {
            Some(level) => level.first,
            None => brace,
        };
        self.pieces.push(Piece {
            part: TokenRange {
                first,
                end: brace.saturating_add(1),
            },
            name: None,
            open: levels.len().saturating_sub(1),
            head: true,
            braced: true,
        })?;
        levels.push(Level::from(brace.saturating_add(1)))?;
        Ok(())
    }

    /// Adds the field that ends with a `;`.
    fn end_field(
        &mut self,
        script: &Script<'_>,
        levels: &mut Vec<Level>,
        semicolon: usize,
    ) -> Result<(), AllocError> {
        let open = levels.len().saturating_sub(1);
        let Some(level) = levels.last_mut() else {
            return Ok(());
        };
        let ended = *level;
        *level = Level::from(semicolon.saturating_add(1));
        self.pieces.push(Piece {
            part: TokenRange {
                first: ended.first,
                end: semicolon.saturating_add(1),
            },
            name: name_in(script, ended, semicolon),
            open,
            head: false,
            braced: ended.first < ended.closed,
        })?;
        Ok(())
    }
}

impl Piece {
    /// Whether it is a field without braces.
    pub fn is_plain(&self) -> bool {
        !self.head && !self.braced
    }

    /// In how many structs and unions the token after it is.
    fn level_behind(&self) -> usize {
        if self.head {
            self.open.saturating_add(1)
        } else {
            self.open
        }
    }
}

impl Level {
    fn from(first: usize) -> Level {
        Level {
            first,
            closed: first,
        }
    }
}

/// Leaves the innermost struct or union at its `}`.
fn close(levels: &mut Vec<Level>, brace: usize) {
    if 1 < levels.len() {
        let _inner = levels.pop();
    }
    if let Some(level) = levels.last_mut() {
        level.closed = brace.saturating_add(1);
    }
}

/// The name of a field that ends with a `;`.
fn name_in(script: &Script<'_>, field: Level, semicolon: usize) -> Option<usize> {
    let name = if field.first < field.closed {
        behind_suffix(script, field.closed, semicolon)
    } else {
        let whole = TokenRange {
            first: field.first,
            end: semicolon,
        };
        name_of(field_parts(script, whole))?
    };
    if name < semicolon && script.is_name(name) {
        Some(name)
    } else {
        None
    }
}

/// The token of a field's name.
fn name_of(parts: FieldParts) -> Option<usize> {
    if parts.name.first < parts.name.end {
        Some(parts.name.first)
    } else {
        None
    }
}

/// The token after the suffix of an array that may begin at a token, or that token.
fn behind_suffix(script: &Script<'_>, first: usize, end: usize) -> usize {
    let mut depth: usize = 0;
    for token in first..end {
        match script.text(token) {
            b"[" => depth = depth.saturating_add(1),
            b"]" => depth = depth.saturating_sub(1),
            _ if depth == 0 => return token,
            _ => {}
        }
    }
    end
}

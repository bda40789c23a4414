// What reading stands at when it meets a place of a text: in which message or entry, behind which of its names. The text up to the place
// is taken to be good, as it is before a refusal's; of any other the answer means nothing.
ghost use Rattle.std.specs.Prelude.{◌≤◌, length};
ghost use Rattle.definitions.specs.Refusals.{most_text};

use crate::catalog;
use definitions::limits::MOST_TEXT;
use definitions::{Want, kinds, labels, tokens};
use lexer::{ClassTable, Cursor, Line};
use records::Schema;
use streams::line;

// What comes next: a field's name or the closer, what stands behind a name, behind its colon, behind a minus.
#[derive(Clone, Copy, PartialEq, Eq)]
pub enum Phase {
    AtName,
    AfterName,
    AfterColon,
    AfterMinus,
}

// More than the deepest message or entry, with the root.
const MOST_LEVELS: usize = 34;

// The messages and entries that are open, the root first, as far as they are known.
type Open = [Option<Want>; MOST_LEVELS];

// What comes next, inside which message or entry (`holder`), how deep, and what the last name there stands for.
#[derive(Clone, Copy)]
pub struct Scene {
    pub phase: Phase,
    pub level: usize,
    pub holder: Option<Want>,
    pub wanted: Option<Want>,
}

// The start of a text.
const FIRST: Cursor = Cursor {
    at: 0,
    line: Line::FIRST,
};

// What a field's name stands for.
fn field_want(schema: &Schema, index: usize) -> Option<Want> {
    let field = catalog::field(schema, index)?;
    Some(if field.label == labels::MAP {
        Want {
            kind: kinds::ENTRY,
            reference: index,
            field: index,
        }
    } else {
        Want {
            kind: field.kind,
            reference: field.reference,
            field: index,
        }
    })
}

// What `key` and `value` stand for in an entry of the map field `index`.
fn entry_want(schema: &Schema, index: usize, name: &[u8]) -> Option<Want> {
    let field = catalog::field(schema, index)?;
    Some(if name == b"key".as_slice() {
        Want {
            kind: field.key,
            reference: 0,
            field: index,
        }
    } else {
        Want {
            kind: field.kind,
            reference: field.reference,
            field: index,
        }
    })
}

// What a name stands for inside a message or an entry.
fn named(schema: &Schema, holder: Want, name: &[u8]) -> Option<Want> {
    if holder.kind == kinds::ENTRY {
        return entry_want(schema, holder.reference, name);
    }
    field_want(schema, catalog::find_field(schema, holder.reference, name)?)
}

impl Scene {
    // At the start of a message or an entry.
    fn inside(holder: Option<Want>, level: usize) -> Scene {
        Scene {
            phase: Phase::AtName,
            level,
            holder,
            wanted: None,
        }
    }

    // The same message or entry, where something else comes next.
    fn at(self, phase: Phase) -> Scene {
        Scene { phase, ..self }
    }

    // Behind a name.
    fn after_name(self, schema: &Schema, name: &[u8]) -> Scene {
        if self.phase != Phase::AtName {
            return self.at(Phase::AtName);
        }
        Scene {
            phase: Phase::AfterName,
            wanted: self.holder.and_then(|holder| named(schema, holder, name)),
            ..self
        }
    }

    // Behind a closer.
    fn left(self, open: &Open) -> Scene {
        let level = self.level.saturating_sub(1);
        Scene::inside(open.get(level).copied().flatten(), level)
    }

    // Behind a token, which is a name, opens, closes, or does none of these.
    // Kept: the token's kind is a number, as definitions' tokens have it.
    fn after(self, schema: &Schema, open: &Open, kind: u8, word: &[u8]) -> Scene {
        match kind {
            tokens::NAME => self.after_name(schema, word),
            tokens::OPEN_BRACE | tokens::OPEN_ANGLE => {
                Scene::inside(self.wanted, self.level.saturating_add(1))
            }
            tokens::CLOSE_BRACE | tokens::CLOSE_ANGLE => self.left(open),
            tokens::COLON => self.at(Phase::AfterColon),
            tokens::MINUS => self.at(Phase::AfterMinus),
            _ if self.phase == Phase::AfterName => self,
            _ => self.at(Phase::AtName),
        }
    }
}

// Goes from token to token up to the offset `at`.
fn walked(schema: &Schema, root: Want, text: &[u8], at: usize, table: &ClassTable) -> Scene
    requires { length text.now ≤ most_text }
{
    let mut scene = Scene::inside(Some(root), 0);
    let mut open: Open = [Some(root); MOST_LEVELS];
    let mut next = FIRST;
    for _ in 0..text.len() {
        let Ok((token, after)) = next.next(text, table) else {
            return scene;
        };
        let start = token.start.offset;
        if at <= start {
            return scene;
        }
        scene = scene.after(schema, &open, token.kind, line::part(text, start, after.at));
        if let Some(place) = open.get_mut(scene.level) {
            *place = scene.holder;
        }
        next = after;
    }
    scene
}

// The scene at an offset of a text of the message `root`.
pub fn scene_at(schema: &Schema, root: usize, text: &[u8], at: usize) -> Scene {
    let holder = Want {
        kind: kinds::MESSAGE,
        reference: root,
        field: 0,
    };
    if MOST_TEXT < text.len() {
        return Scene::inside(Some(holder), 0);
    }
    walked(schema, holder, text, at, &ClassTable::new())
}

//! Rows of namespaces: what is declared, where names lead, and how many arguments they take.
ghost use Rattle.std.specs.Prelude.{◌≤◌, length};

use crate::code::push_read;
use crate::lines::{Line, count_of, first_word};
use aml_names::{Arity, Locals, Name, NameForm, Path, Seg, Segs, place};
use aml_parse::parse_body;
use aml_space::{BodyScope, Kind, Space, SpacePath, SpaceRow};
use std::alloc::{AllocError, Global};
use std::fmt::Write;

/// Declares a path, once or again.
pub fn push_declared(
    alloc: Global,
    out: &mut String,
    space: &mut Space,
    line: Line<'_>,
) -> Result<(), AllocError> {
    let (path, words) = first_word(line.words);
    let kind = kind_of(alloc, words)?;
    let path = path_of(alloc, path)?;
    match line.kind {
        "again" => space.declare_again(path, kind, true),
        "maybe" => space.declare_again(path, kind, false),
        _ => declare(out, space, path, kind),
    }
}

/// Declares a path, or says why it isn't.
fn declare(
    out: &mut String,
    space: &mut Space,
    path: Path,
    kind: Kind<Path>,
) -> Result<(), AllocError> {
    match space.declare(path, kind) {
        Ok(()) => Ok(()),
        Err(fault) => writeln!(out, "  {fault}"),
    }
}

/// Adds an External, a count that the user gives, or a path that a body has declared.
pub fn add(
    alloc: Global,
    space: &mut Space,
    locals: &mut Locals,
    line: Line<'_>,
) -> Result<(), AllocError> {
    let (path, count) = first_word(line.words);
    let path = path_of(alloc, path)?;
    match line.kind {
        "external" => space.external(path, count_of(count)),
        "given" => space.given(&path, count_of(count)),
        _ => locals.push(path),
    }
}

/// A namespace, and the paths that a body has declared.
#[derive(Clone, Copy)]
pub struct Names<'n> {
    pub alloc: Global,
    pub space: &'n Space,
    pub locals: &'n Locals,
}

/// A name in a scope.
#[derive(Drop)]
struct Asked {
    scope: Path,
    name: Name,
}

impl Names<'_> {
    /// Where a name leads from a scope, or how many arguments it takes in a method's body.
    pub fn push_lead(&self, out: &mut String, line: Line<'_>) -> Result<(), AllocError> {
        let (scope, name) = first_word(line.words);
        let asked = Asked {
            scope: path_of(self.alloc, scope)?,
            name: name_of(self.alloc, name)?,
        };
        self.push_answer(out, line.kind, &asked)
    }

    fn push_answer(&self, out: &mut String, way: &str, asked: &Asked) -> Result<(), AllocError> {
        match way {
            "arity" => self.push_arity(out, asked, false),
            "arity_unknown_zero" => self.push_arity(out, asked, true),
            way => {
                let path = self.led_path(way, asked)?;
                push_path(out, path.as_ref())
            }
        }
    }

    /// Where a name leads from a scope.
    fn led_path(&self, way: &str, asked: &Asked) -> Result<Option<Path>, AllocError> {
        let Asked { scope, name } = asked;
        match way {
            "place" => place(self.alloc, scope, name),
            "find" => self.space.find(self.alloc, scope, name),
            "lead" => self.space.lead(self.alloc, scope, name),
            _ => self.space.search(self.alloc, self.locals, scope, name),
        }
    }

    /// How many arguments a name takes in the body of a method.
    fn push_arity(
        &self,
        out: &mut String,
        asked: &Asked,
        unknown_zero: bool,
    ) -> Result<(), AllocError> {
        let scope = BodyScope {
            space: self.space,
            method: &asked.scope,
            unknown_zero,
        };
        push_count(out, scope.count(self.alloc, self.locals, &asked.name)?)
    }

    /// The terms of the body of a method.
    pub fn push_body(&self, out: &mut String, method: &str, code: &[u8]) -> Result<(), AllocError>
        requires { length code.now ≤ 16777216 }
    {
        let method = path_of(self.alloc, method)?;
        let scope = BodyScope {
            space: self.space,
            method: &method,
            unknown_zero: false,
        };
        let read = parse_body(self.alloc, code, &scope, &method);
        push_read(self.alloc, out, code, read)
    }

    /// What is known of a path.
    pub fn push_known(&self, out: &mut String, line: Line<'_>) -> Result<(), AllocError> {
        let path = path_of(self.alloc, line.words)?;
        match line.kind {
            "count" => push_count(out, self.space.count(&path)),
            "kind" => self.push_kind(out, &path),
            "counted" => self.push_counted(out, &path),
            "is_local" => self.push_local(out, &path),
            "scope" => self.push_scope(out, &path),
            "alias" => self.push_alias(out, &path),
            _ => self.push_declared(out, &path),
        }
    }

    fn push_kind(&self, out: &mut String, path: &Path) -> Result<(), AllocError> {
        push_row_or_none(self.alloc, out, path, self.space.kind(path))
    }

    /// The same, and whether it was found by some comparisons, but at most 64 a segment.
    fn push_counted(&self, out: &mut String, path: &Path) -> Result<(), AllocError> {
        let (kind, compared) = self.space.kind_counted(path);
        push_row_or_none(self.alloc, out, path, kind)?;
        let most = 64 * path.segs().len() as u128;
        let said = if compared == 0 {
            "no"
        } else if compared <= most {
            "few"
        } else {
            "many"
        };
        writeln!(out, "  {said} comparisons")
    }

    /// Whether a body has declared a path.
    fn push_local(&self, out: &mut String, path: &Path) -> Result<(), AllocError> {
        out.push_str(if self.locals.has(path) {
            "  local\n"
        } else {
            "  not local\n"
        })
    }

    /// Whether a Scope may open a path in every run.
    fn push_scope(&self, out: &mut String, path: &Path) -> Result<(), AllocError> {
        let whole = self.space.whole(path.segs());
        let scope = if self.space.is_scope(&whole) {
            "a scope"
        } else {
            "no scope"
        };
        writeln!(out, "  {scope}")
    }

    /// Whether an Alias of a path is open.
    fn push_alias(&self, out: &mut String, path: &Path) -> Result<(), AllocError> {
        let whole = self.space.whole(path.segs());
        let open = if self.space.is_open(&whole) {
            "open"
        } else {
            "not open"
        };
        writeln!(out, "  {open}")
    }

    /// Whether a path is declared, and whether it has a kind in every run.
    fn push_declared(&self, out: &mut String, path: &Path) -> Result<(), AllocError> {
        let whole = self.space.whole(path.segs());
        let declared = if self.space.is_declared(&whole) {
            "declared"
        } else {
            "not declared"
        };
        let sure = if self.space.is_sure(&whole) {
            "sure"
        } else {
            "not sure"
        };
        writeln!(out, "  {declared}, {sure}")
    }
}

/// A name from its text: prefixes, and segments with dots between them.
fn name_of(alloc: Global, text: &str) -> Result<Name, AllocError> {
    let mut segs = Segs::new(alloc);
    push_segments(&mut segs, text)?;
    Ok(Name {
        root: text.starts_with('\\'),
        ups: u32::try_from(text.matches('^').count()).unwrap_or(0),
        form: NameForm::Multi,
        segs,
    })
}

/// Adds the segments of a name.
fn push_segments(segs: &mut Segs, text: &str) -> Result<(), AllocError> {
    for part in text.split(['\\', '^', '.']) {
        if let [a, b, c, d] = part.as_bytes() {
            segs.push(Seg([*a, *b, *c, *d]))?;
        }
    }
    Ok(())
}

/// A path from its text, which begins at the root.
fn path_of(alloc: Global, text: &str) -> Result<Path, AllocError> {
    let mut segs = Segs::new(alloc);
    push_segments(&mut segs, text)?;
    Path::below(alloc, &[], segs.as_slice())
}

fn push_path(out: &mut String, path: Option<&Path>) -> Result<(), AllocError> {
    match path {
        None => out.push_str("  none\n"),
        Some(path) => writeln!(out, "  {path}"),
    }
}

fn push_count(out: &mut String, count: Option<u8>) -> Result<(), AllocError> {
    match count {
        None => out.push_str("  none\n"),
        Some(count) => writeln!(out, "  {count}"),
    }
}

/// Whether there are locals.
pub fn push_locals(out: &mut String, locals: &Locals) -> Result<(), AllocError> {
    out.push_str(if locals.is_empty() {
        "  none\n"
    } else {
        "  some\n"
    })
}

/// The declared paths of a namespace in their order, each with its kind.
pub fn push_rows(alloc: Global, out: &mut String, space: &Space) -> Result<(), AllocError> {
    let rows = space.rows(alloc)?;
    push_each(out, rows.as_slice())
}

fn push_each(out: &mut String, rows: &[SpaceRow]) -> Result<(), AllocError> {
    for row in rows {
        push_marked(out, row)?;
    }
    Ok(())
}

/// The declared path at a place in the order of the paths.
pub fn push_row_at(
    alloc: Global,
    out: &mut String,
    space: &Space,
    place: usize,
) -> Result<(), AllocError> {
    match space.row_at(place) {
        None => out.push_str("  none\n"),
        Some(row) => {
            let marked = SpaceRow {
                path: row.path().to_path(alloc)?,
                kind: own_kind(alloc, &row.kind())?,
                sure: row.is_sure(),
                times: row.times(),
            };
            push_marked(out, &marked)
        }
    }
}

fn push_row_or_none(
    alloc: Global,
    out: &mut String,
    path: &Path,
    kind: Option<Kind<SpacePath<'_>>>,
) -> Result<(), AllocError> {
    match kind {
        None => out.push_str("  none\n"),
        Some(kind) => push_row(out, path, &own_kind(alloc, &kind)?),
    }
}

/// A kind with the path of an Alias's target made anew.
fn own_kind(alloc: Global, kind: &Kind<SpacePath<'_>>) -> Result<Kind<Path>, AllocError> {
    let target = match kind.target() {
        None => Path::root(alloc),
        Some(target) => target.to_path(alloc)?,
    };
    Ok(kind.aimed_at(target))
}

fn push_row(out: &mut String, path: &Path, kind: &Kind<Path>) -> Result<(), AllocError> {
    push_kind(out, path, kind)?;
    out.push_str("\n")
}

/// A declared path, with the marks of one that only may stand, or that is declared several times.
fn push_marked(out: &mut String, row: &SpaceRow) -> Result<(), AllocError> {
    push_kind(out, &row.path, &row.kind)?;
    if !row.sure {
        out.push_str(" Maybe")?;
    }
    if row.times > 1 {
        write!(out, " Times {}", row.times)?;
    }
    out.push_str("\n")
}

/// A path and its kind.
fn push_kind(out: &mut String, path: &Path, kind: &Kind<Path>) -> Result<(), AllocError> {
    let word = kind_word(kind);
    match kind {
        Kind::Method { args } => write!(out, "  {path} {word} {args}"),
        Kind::Alias { target, .. } => write!(out, "  {path} {word} {target}"),
        _ => write!(out, "  {path} {word}"),
    }
}

fn kind_word(kind: &Kind<Path>) -> &'static str {
    match kind {
        Kind::Scope => "Scope",
        Kind::Name => "Name",
        Kind::Method { .. } => "Method",
        Kind::Alias { .. } => "Alias",
        Kind::Device => "Device",
        Kind::Processor => "Processor",
        Kind::PowerResource => "PowerResource",
        Kind::ThermalZone => "ThermalZone",
        Kind::Mutex => "Mutex",
        Kind::Event => "Event",
        Kind::Region => "Region",
        Kind::DataRegion => "DataRegion",
        Kind::Field => "Field",
        Kind::BufferField => "BufferField",
    }
}

/// The kind of these words; a Name where they are no other.
fn kind_of(alloc: Global, words: &str) -> Result<Kind<Path>, AllocError> {
    let (word, more) = first_word(words);
    Ok(match word {
        "Method" => Kind::Method {
            args: count_of(more),
        },
        "Alias" | "OpenAlias" => Kind::Alias {
            is_open: word == "OpenAlias",
            target: path_of(alloc, more)?,
        },
        "Mutex" => Kind::Mutex,
        "Device" => Kind::Device,
        _ => Kind::Name,
    })
}

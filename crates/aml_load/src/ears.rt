//! What is heard of the terms of a table, as they are told, before it declares anything.
ghost use Rattle.std.specs.Prelude.{◌≡◌, ◌∷◌, [], Option, Some, None, Ok, OnOk, IfOk, option_map, drop, cond, true};
ghost use Rattle.std.specs.List.{AllByRecursion};
ghost use Rattle.aml_code.specs.Opcodes.{row_view};
ghost use Rattle.aml_code.specs.Pieces.{piece_view};
ghost use Rattle.aml_code.specs.View.{field_view};
ghost use Rattle.aml_namespace.specs.Known.{Known};
ghost use Rattle.aml_load.specs.Declaring.{kinds_in};
ghost use Rattle.aml_load.specs.Hearing.{Heard, asks, asks_of, passed, inside, catch, closed, head_of, call_at, with_part};
ghost use Rattle.aml_load.specs.Hearing.{with_unit, behind_part, noted_by, left, top, opening, asked_by, named_by};
ghost use Rattle.aml_load.specs.Hearing.{opened_by, unit_by, list_in, shape_by, run, hear, is_block, is_head};
ghost use Rattle.aml_load.specs.HearingViews.{around_view, head_view, last_of, noted_view, stack_view, Goes};
ghost use Rattle.aml_load.specs.HearingViews.{IsNumbered, IsHeadNumbered, AreNumbered};
ghost use Rattle.aml_load.specs.Walking.{at_site};

use crate::groups::{Group, add_asked};
use crate::roles::{declares_by, is_argument, kinds_of};
use crate::sites::Site;
use crate::used::Asked;
use aml_code::{Field, Name, NoMemory, OpRow, Piece, Role, Seg, Sink, TailKind};
use std::alloc::Global;

/// What stands around a piece.
#[derive(Clone, Copy)]
pub enum Around {
    /// A list of terms at a site.
    Terms(Site),
    /// A term at a site, whose code may run.
    Run(Site),
    /// The parts of a term there with this opcode, of which so many were told.
    Head(u16, usize),
    /// Those of another term.
    Inner(u16, usize),
    /// The arguments of a name.
    Arguments,
    /// Elements.
    Elements,
    /// The units of a term of a list.
    Units,
    /// What declares nothing, and asks nothing.
    Nowhere,
}

/// What is noted of a part of a term.
#[derive(Clone, Copy)]
pub enum Noted<'n> {
    Label(&'n Name),
    Byte(u8),
    Other,
}

/// What a term of a list is.
#[derive(Clone, Copy)]
pub enum Shape {
    /// A name with its arguments.
    Call,
    /// An opcode inside which no terms stand.
    Flat,
    /// An opcode inside which terms stand.
    Block,
}

/// What was told so far of a term of a list.
#[derive(Drop)]
pub struct Head {
    pub site: Site,
    /// Whether it is a declaration.
    pub declaring: bool,
    pub shape: Shape,
    pub role: Role,
    /// Whether a part was told.
    pub begun: bool,
    /// The first part, if it is a name.
    pub source: Option<Name>,
    /// The last name among the parts behind it. Few terms have one: it stands apart, so that a head is short.
    pub later: Option<Box<Name>>,
    /// The last byte among them.
    pub byte: Option<u8>,
    /// The named units behind them.
    pub units: Vec<Seg>,
}

/// What is heard of the terms of a table.
#[derive(Drop)]
pub struct Ears {
    pub alloc: Global,
    /// The names that were asked meanwhile, in groups of one scope.
    pub uses: Vec<Group>,
    /// The term of a list that isn't told whole.
    pub head: Option<Head>,
    /// What stands around the next piece, the nearest last.
    pub around: Vec<Around>,
}

/// Whether the part behind so many parts of an opcode is a TermArg, if there is one.
fn asks_at(opcode: u16, told: usize) -> Option<bool>
    ensures { result ≡ asks_of (drop told (kinds_in opcode)) }
{
    let kind = kinds_of(opcode).get(told)?;
    Some(is_argument(*kind))
}

impl Around {
    /// Whether names there are asked, and whether a name there is a TermArg.
    fn asks(&self) -> Option<bool>
        ensures { (k : Known) → result ≡ asks (around_view k self.now) }
    {
        match self {
            Around::Head(opcode, told) | Around::Inner(opcode, told) => asks_at(*opcode, *told),
            Around::Arguments => Some(true),
            Around::Elements | Around::Units => Some(false),
            Around::Terms(_) | Around::Run(_) | Around::Nowhere => None,
        }
    }

    /// Whether the parts of a term of a list stand there.
    pub fn is_head(&self) -> bool
        ensures { (k : Known) → result ≡ is_head (around_view k self.now) }
    {
        match self {
            Around::Head(..) => true,
            _ => false,
        }
    }

    /// Behind a part, an argument, an element or a term.
    fn passed(&self) -> Around
        ensures passed { (k : Known) → around_view k result ≡ passed (around_view k self.now) }
        ensures numbered { (k : Known) → IsNumbered k self.now → IsNumbered k result }
    {
        match self {
            Around::Head(opcode, told) => Around::Head(*opcode, told.saturating_add(1)),
            Around::Inner(opcode, told) => Around::Inner(*opcode, told.saturating_add(1)),
            _ => *self,
        }
    }

    /// Inside what is asked this, and else nothing.
    fn inside(&self, new: Around) -> Around
        ensures numbered { (k : Known) → IsNumbered k new → IsNumbered k result }
        ensures inside { (k : Known) → around_view k result ≡ inside (around_view k self.now) (around_view k new) }
    {
        match self.asks() {
            None => Around::Nowhere,
            Some(_) => new,
        }
    }
}

/// Whether terms stand inside an opcode with this tail.
fn shape_by(tail: Option<TailKind>) -> Shape
    ensures { result ≡ shape_by tail }
{
    match tail {
        Some(TailKind::Terms) => Shape::Block,
        _ => Shape::Flat,
    }
}

impl Head {
    /// A term at a site whose opcode has no row, of which nothing else was told.
    pub fn unlisted(alloc: Global, site: Site) -> Head
        ensures head { (k : Known) → head_view k result ≡ head_of (at_site k site) None }
        ensures site { result.site ≡ site }
    {
        Head {
            site,
            declaring: false,
            shape: Shape::Flat,
            role: Role::Other,
            begun: false,
            source: None,
            later: None,
            byte: None,
            units: Vec::new(alloc),
        }
    }

    /// A term of this row at a site, of which nothing else was told.
    pub fn new(alloc: Global, site: Site, row: &OpRow) -> Head
        ensures head { (k : Known) → head_view k result ≡ head_of (at_site k site) (Some (row_view row.now)) }
        ensures site { result.site ≡ site }
    {
        let mut head = Head::unlisted(alloc, site);
        head.declaring = declares_by(row.group);
        head.shape = shape_by(row.tail);
        head.role = row.role;
        head
    }

    /// A name at a site that is a term.
    pub fn call(alloc: Global, site: Site) -> Head
        ensures head { (k : Known) → head_view k result ≡ call_at (at_site k site) }
        ensures site { result.site ≡ site }
    {
        let mut head = Head::unlisted(alloc, site);
        head.shape = Shape::Call;
        head
    }

    /// Behind a part.
    #[inline(always)]
    pub fn note(&mut self, noted: &Noted<'_>) -> Result<(), NoMemory>
        ensures noted { (k : Known) → OnOk result
            (head_view k self.new ≡ with_part (noted_view noted.now) (head_view k self.old)) }
        ensures site { OnOk result (self.new.site ≡ self.old.site) }
    {
        match noted {
            Noted::Label(name) => self.note_label(name)?,
            Noted::Byte(value) => self.byte = Some(*value),
            Noted::Other => {}
        }
        self.begun = true;
        Ok(())
    }

    /// Notes a name.
    #[inline(never)]
    fn note_label(&mut self, name: &Name) -> Result<(), NoMemory>
        ensures noted { (k : Known) → OnOk result (head_view k self.new ≡ record (head_view k self.old) {
          source = cond self.old.begun self.old.source (Some name.now);
          last = Some name.now;
        }) }
        ensures site { OnOk result (self.new.site ≡ self.old.site) }
    {
        let kept = name.clone()?;
        if self.begun {
            self.later = Some(Box::new(*self.units.allocator(), kept)?);
        } else {
            self.source = Some(kept);
            self.later = None;
        }
        Ok(())
    }

    /// The last name among the parts.
    pub fn last(&self) -> Option<&Name>
        ensures { option_map (λ n. n.now) result ≡ last_of self.now }
    {
        match &self.later {
            None => self.source.as_ref(),
            Some(name) => Some(&**name),
        }
    }

    /// Behind an element of a field list.
    pub fn add_unit(&mut self, field: &Field) -> Result<(), NoMemory>
        ensures unit { (k : Known) → OnOk result
            (head_view k self.new ≡ with_unit (field_view field.now) (head_view k self.old)) }
        ensures site { OnOk result (self.new.site ≡ self.old.site) }
    {
        if let Field::NamedUnit { seg, .. } = field {
            self.units.push(*seg)?;
        }
        Ok(())
    }
}

/// Behind a part, which may be one of a head.
#[inline(always)]
fn note_in(head: &mut Option<Head>, around: &Around, noted: &Noted<'_>) -> Result<(), NoMemory>
    ensures head { (k : Known) → OnOk result (option_map (head_view k) head.new
        ≡ noted_by (around_view k around.now) (noted_view noted.now) (option_map (head_view k) head.old)) }
    ensures numbered { (k : Known) → IsHeadNumbered k head.old → OnOk result (IsHeadNumbered k head.new) }
{
    if let Around::Head(..) = around {
        if let Some(head) = head {
            head.note(noted)?;
        }
    }
    Ok(())
}

/// What stands around the members of another list of this kind, by the opcode around it.
fn list_in(around: &Around, kind: TailKind) -> Around
    ensures around { (k : Known) → around_view k result ≡ list_in (around_view k around.now) kind }
    ensures numbered { (k : Known) → IsNumbered k result }
{
    match (around, kind) {
        (Around::Head(..), TailKind::Fields) => Around::Units,
        (Around::Head(..) | Around::Inner(..), TailKind::Fields | TailKind::Elements) =>
            Around::Elements,
        _ => Around::Nowhere,
    }
}

/// Behind an element of a field list, in a term.
fn add_unit_in(head: &mut Option<Head>, field: &Field) -> Result<(), NoMemory>
    ensures head { (k : Known) → OnOk result (option_map (head_view k) head.new
        ≡ option_map (with_unit (field_view field.now)) (option_map (head_view k) head.old)) }
    ensures numbered { (k : Known) → IsHeadNumbered k head.old → OnOk result (IsHeadNumbered k head.new) }
{
    if let Some(head) = head {
        head.add_unit(field)?;
    }
    Ok(())
}

/// A name that is asked at a site, in a declaration or not.
fn asked_in(site: &Site, declaring: bool, name: &Name, count: u8) -> Result<Asked, NoMemory>
    ensures { IfOk result (λ asked. asked
        ≡ record { table = site.now.table; name = name.now; args = count; declaring = declaring }) }
{
    Ok(Asked {
        table: site.table,
        name: name.clone()?,
        args: count as usize,
        declaring,
    })
}

impl Ears {
    /// Where nothing was told yet, and this stands around.
    pub fn new(alloc: Global, around: Around) -> Result<Ears, NoMemory>
        ensures uses { IfOk result (λ x. x.uses.items ≡ []) }
        ensures head { IfOk result (λ x. x.head ≡ None) }
        ensures around { IfOk result (λ x. x.around.items ≡ around ∷ []) }
    {
        let mut stack = Vec::new(alloc);
        stack.push(around)?;
        Ok(Ears {
            alloc,
            uses: Vec::new(alloc),
            head: None,
            around: stack,
        })
    }

    /// Behind a part.
    #[inline(always)]
    fn pass(&mut self, noted: Noted<'_>) -> Result<(), NoMemory>
        ensures { (k : Known) → OnOk result (Goes k self.old self.new (behind_part (noted_view noted.entry))) }
    {
        let Some(top) = self.around.last_mut() else {
            return Ok(());
        };
        note_in(&mut self.head, top, &noted)?;
        *top = top.passed();
        Ok(())
    }

    /// Leaves what stands nearest.
    pub fn leave(&mut self)
        ensures { (k : Known) → Goes k self.old self.new left }
    {
        let _ = self.around.pop();
    }

    /// Behind the tail of an opcode, or the arguments of a name.
    pub fn close(&mut self) -> Result<(), NoMemory>
        ensures { (k : Known) → OnOk result (Goes k self.old self.new closed) }
    {
        self.leave();
        self.pass(Noted::Other)?;
        Ok(())
    }

    /// What stands nearest; nothing where nothing stands around.
    pub fn top(&self) -> Around
        ensures top { (k : Known) → around_view k result ≡ top (stack_view k self.now.around.items) }
        ensures numbered { (k : Known) → AllByRecursion (IsNumbered k) self.now.around.items → IsNumbered k result }
    {
        match self.around.last() {
            None => Around::Nowhere,
            Some(around) => *around,
        }
    }

    /// Whether the term of a list that isn't told whole is an opcode inside which terms stand.
    pub fn is_block(&self) -> bool
        ensures { (k : Known) → result ≡ is_block (option_map (head_view k) self.now.head) }
    {
        match &self.head {
            Some(head) => matches!(head.shape, Shape::Block),
            None => false,
        }
    }

    /// Goes into what stands around the next piece.
    pub fn go_in(&mut self, around: Around) -> Result<(), NoMemory>
        ensures { (k : Known) → IsNumbered k around →
            OnOk result (Goes k self.old self.new (opening (around_view k around))) }
    {
        self.around.push(around)?;
        Ok(())
    }
}

impl Ears {
    /// Behind a name that is a TermArg.
    fn ask(&mut self, name: &Name, count: u8) -> Result<(), NoMemory>
        ensures { (k : Known) →
            OnOk result (Goes k self.old self.new (λ x. asked_by x.term (Some true) name.now count x)) }
    {
        let Some(head) = &self.head else {
            return Ok(());
        };
        let site = head.site;
        let asked = asked_in(&site, head.declaring, name, count)?;
        add_asked(self.alloc, &mut self.uses, site.scope, asked)?;
        Ok(())
    }

    /// Behind a name, which is asked where what stands around it asks and it is a TermArg.
    fn ask_in(&mut self, around: &Around, name: &Name, count: u8) -> Result<(), NoMemory>
        ensures { (k : Known) → OnOk result (Goes k self.old self.new
            (λ x. asked_by x.term (asks (around_view k around.now)) name.now count x)) }
    {
        match around.asks() {
            Some(true) => self.ask(name, count),
            Some(false) | None => Ok(()),
        }
    }

    /// Begins a name that is a term at a site, and asks it.
    fn begin_call(&mut self, site: Site, name: &Name, count: u8) -> Result<(), NoMemory>
        ensures { (k : Known) → IsNumbered k (Around.Run site) → OnOk result
            (Goes k self.old self.new (named_by (run (at_site k site)) name.now count)) }
    {
        let asked = asked_in(&site, false, name, count)?;
        add_asked(self.alloc, &mut self.uses, site.scope, asked)?;
        self.head = Some(Head::call(self.alloc, site));
        self.around.push(Around::Arguments)?;
        Ok(())
    }

    /// A name, of which so many arguments follow.
    fn catch_name(&mut self, name: &Name, count: u8) -> Result<(), NoMemory>
        ensures { (k : Known) → AreNumbered k self.old → OnOk result
            (Goes k self.old self.new (λ x. named_by (top x.around) name.now count x)) }
    {
        let top = self.top();
        match top {
            Around::Run(site) => self.begin_call(site, name, count),
            _ => {
                self.ask_in(&top, name, count)?;
                self.go_in(top.inside(Around::Arguments))
            }
        }
    }

    /// Begins a term of this row at a site.
    fn begin(&mut self, site: Site, row: &OpRow) -> Result<(), NoMemory>
        ensures { (k : Known) → IsNumbered k (Around.Run site) → OnOk result
            (Goes k self.old self.new (opened_by (run (at_site k site)) row.now.opcode (Some (row_view row.now)))) }
    {
        self.head = Some(Head::new(self.alloc, site, row));
        self.around.push(Around::Head(row.opcode, 0))?;
        Ok(())
    }

    /// An opcode of this row.
    fn catch_opcode(&mut self, row: &OpRow) -> Result<(), NoMemory>
        ensures { (k : Known) → AreNumbered k self.old → OnOk result
            (Goes k self.old self.new (λ x. opened_by (top x.around) row.now.opcode (Some (row_view row.now)) x)) }
    {
        let top = self.top();
        match top {
            Around::Terms(site) | Around::Run(site) => self.begin(site, row),
            _ => self.go_in(top.inside(Around::Inner(row.opcode, 0))),
        }
    }

    /// A list of this kind, whose members declare nothing.
    pub fn catch_list(&mut self, kind: TailKind) -> Result<(), NoMemory>
        ensures { (k : Known) → OnOk result
            (Goes k self.old self.new (λ x. opening (list_in (top x.around) kind) x)) }
    {
        let around = list_in(&self.top(), kind);
        self.go_in(around)
    }

    /// An element of a field list.
    fn catch_unit(&mut self, field: &Field) -> Result<(), NoMemory>
        ensures { (k : Known) → OnOk result
            (Goes k self.old self.new (λ x. unit_by (top x.around) (field_view field.now) x)) }
    {
        if let Around::Units = self.top() {
            add_unit_in(&mut self.head, field)?;
        }
        Ok(())
    }

    /// Behind a list.
    fn close_list(&mut self) -> Result<(), NoMemory>
        ensures { (k : Known) → OnOk result (Goes k self.old self.new (λ x. closed (left x))) }
    {
        self.leave();
        self.close()
    }

    /// A piece, behind which no term does anything.
    #[inline(always)]
    pub fn catch(&mut self, piece: &Piece<'_>) -> Result<(), NoMemory>
        ensures { (k : Known) → AreNumbered k self.old → OnOk result
            (Goes k self.old self.new (catch (piece_view piece.now))) }
    {
        match *piece {
            Piece::Name(name, count) => self.catch_name(name, count),
            Piece::Opcode(row, _width) => self.catch_opcode(row),
            Piece::Label(name) => self.pass(Noted::Label(name)),
            Piece::Byte(value) => self.pass(Noted::Byte(value)),
            Piece::Absent => self.pass(Noted::Other),
            Piece::Word(_) => self.pass(Noted::Other),
            Piece::Dword(_) => self.pass(Noted::Other),
            Piece::Qword(_) => self.pass(Noted::Other),
            Piece::Text(_) => self.pass(Noted::Other),
            Piece::EndOfCall(_) => self.close(),
            Piece::Empty => self.close(),
            Piece::Bytes(_) => self.close(),
            Piece::Body(..) => self.close(),
            Piece::List(kind) => self.catch_list(kind),
            Piece::EndOfList(..) => self.close_list(),
            Piece::Field(field) => self.catch_unit(field),
            Piece::EndOfParts(_)
            | Piece::Next
            | Piece::Line(_)
            | Piece::EndOfLine
            | Piece::Link
            | Piece::EndOfLink => Ok(()),
        }
    }
}

impl Ears {
    /// The same. Of the reader's frame it takes nothing.
    #[inline(never)]
    fn take(&mut self, piece: &Piece<'_>) -> Result<(), NoMemory>
        ensures { (k : Known) → AreNumbered k self.old → OnOk result
            (Goes k self.old self.new (catch (piece_view piece.now))) }
    {
        self.catch(piece)
    }
}

/// Whether a piece changes nothing of what is heard.
#[inline(always)]
pub fn is_silent(piece: &Piece<'_>) -> bool
    ensures caught { result ≡ true → (x : Heard) → catch (piece_view piece.now) x ≡ x }
    ensures heard { result ≡ true → (x : Heard) → hear true (piece_view piece.now) x ≡ Ok x }
{
    matches!(
        piece,
        Piece::EndOfParts(_)
            | Piece::Next
            | Piece::Line(_)
            | Piece::EndOfLine
            | Piece::Link
            | Piece::EndOfLink
    )
}

impl Sink for Ears {
    ghost use Rattle.aml_load.specs.HearingViews.{Caught};
    ghost use Rattle.aml_load.specs.HearerLaws.{caught_still, caught_further};

    ghost grew = { λ a b ps. Caught a b ps };

    #[inline(always)]
    fn tell(&mut self, piece: &Piece<'_>) -> Result<(), NoMemory> {
        if is_silent(piece) {
            return Ok(());
        }
        self.take(piece)
    }

    ghost nothing = { λ s. caught_still s };

    ghost further = { λ a b c ps qs h g. caught_further a b c ps qs h g };
}

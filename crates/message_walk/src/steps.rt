// A step from a position: what stands there, and the position behind it.
ghost use Rattle.std.specs.Prelude.{◌≡◌, ◌<◌, ◌≤◌};
ghost use Rattle.wire.specs.Layout.{bqual_most};
ghost use Rattle.message_layout.specs.Rows.{places};
ghost use Rattle.message_layout.specs.declared.Kind.TheVariants as kinds;
ghost use Rattle.message_walk.specs.Reasons.{fault_of, reason_of};
ghost use Rattle.message_walk.specs.Positions.{start, piece_at, to_piece, to_field, to_element, onward, inward, behind, next_of, field_step, step_at, walk_from};

use crate::pieces::left_over;
use crate::{Met, Position, Reason, Step};
use message_layout::elements::field_at;
use message_layout::{Element, Kind, Source};
use wire::Item;
use wire::fields::GTRID_MOST;

impl Position {
    // The position of the first field of a message of that type.
    pub fn first(kind: u64) -> Position
        ensures { result ≡ start kind }
    {
        Position {
            kind,
            within: None,
            field: 0,
            piece: 0,
            told: 0,
            place: 0,
            count: 0,
            left: 0,
            after: 0,
        }
    }

    // What stands here.
    #[tactic(auto, using(crate::proofs::Leaves::field_within), unfolding(crate::specs::Positions::step_in))]
    pub fn step(self, s: &[u8]) -> Step
        ensures { result ≡ step_at s.now self }
    {
        match field_at(self.source(), self.field) {
            Some(field) => self.field_step(s, field.kind),
            None => left_over(s, self.place).map_or(Ok(None), Err),
        }
    }

    // The first fault from here on: step after step.
    pub fn reason(self, s: &[u8]) -> Option<Reason>
        ensures { result ≡ reason_of s.now (walk_from s.now self) }
    {
        let mut at = self;
        loop {
            match at.step(s) {
                Ok(Some(met)) => at = met.next,
                Ok(None) => return None,
                Err(reason) => return Some(reason),
            }
        }
    }

    // A field, whose number is below `places`: whether it is at fault, and the position behind it.
    #[tactic(auto, using(crate::proofs::Leaves::value_judged))]
    fn field_step(self, s: &[u8], kind: Kind) -> Step
        requires { self.field < places }
        ensures { result ≡ field_step (fault_of s.now (piece_at self kind)) (piece_at self kind) (next_of s.now self kind) }
    {
        let piece = self.piece_of(kind);
        if let Some(reason) = piece.fault(s) {
            return Err(reason);
        }
        let value = piece.form.value_at(s, self.place);
        let next = self.behind_piece(kind, value, self.place + piece.form.size());
        Ok(Some(Met { piece, next }))
    }

    // Piece j of the same field, which is told a number.
    fn to_piece(self, piece: u64, told: u64, place: usize) -> Position
        ensures { result ≡ to_piece self piece told place }
    {
        Position {
            piece,
            told,
            place,
            ..self
        }
    }

    // Field k of the same layout.
    fn to_field(self, field: u64, place: usize) -> Position
        ensures { result ≡ to_field self field place }
    {
        Position {
            field,
            piece: 0,
            told: 0,
            place,
            ..self
        }
    }

    // The next element; behind the last one, the next field of the message.
    fn to_element(self, place: usize) -> Position
        ensures { result ≡ to_element self place }
    {
        if self.left <= 1 {
            return Position {
                field: self.after,
                place,
                ..Position::first(self.kind)
            };
        }
        Position {
            left: self.left - 1,
            ..self.to_field(0, place)
        }
    }

    // Behind a field: the next one of the layout, or of the next element.
    fn onward(self, place: usize) -> Position
        requires { self.field < places }
        ensures { result ≡ onward self.within self place }
    {
        let next = self.field + 1;
        match self.within {
            Some(element) if field_at(Source::Element { element }, next).is_none() => {
                self.to_element(place)
            }
            _ => self.to_field(next, place),
        }
    }

    // Behind a count or a flag of n: the first of n elements.
    fn inward(self, element: Element, count: u64, n: u64, place: usize) -> Position
        requires { self.field < places }
        ensures { result ≡ inward element count n self place }
    {
        if n == 0 {
            return self.onward(place);
        }
        Position {
            within: Some(element),
            place,
            count,
            left: n,
            after: self.field + 1,
            ..Position::first(self.kind)
        }
    }

    // Behind a piece of a field, of which the value is given.
    fn behind_piece(self, kind: Kind, value: u64, place: usize) -> Position
        requires field_lt_places { self.field < places }
        requires value_le_bqual_most { kind ≡ kinds.Xid → self.piece ≡ 2 → value ≤ bqual_most }
        ensures { result ≡ behind kind self.piece value self place }
    {
        match kind {
            Kind::One { item: Item::Str } if self.piece == 0 => self.to_piece(1, value, place),
            Kind::One { .. } => self.onward(place),
            Kind::List { element } => self.inward(element, value, value, place),
            Kind::Optional { element } => self.inward(element, 0, value, place),
            Kind::Xid => self.behind_xid(value, place),
        }
    }

    // The first length of an xid is told by the position: it counts at most as its limit, also at a position that no walk comes to.
    fn behind_xid(self, value: u64, place: usize) -> Position
        requires field_lt_places { self.field < places }
        requires value_le_bqual_most { self.piece ≡ 2 → value ≤ bqual_most }
        ensures { result ≡ behind kinds.Xid self.piece value self place }
    {
        match self.piece {
            0 if value == 0 => self.onward(place),
            0 => self.to_piece(1, 0, place),
            1 => self.to_piece(2, value, place),
            2 => self.to_piece(3, self.told.min(GTRID_MOST) + value, place),
            _ => self.onward(place),
        }
    }
}

// The places whose bytes a line can name.

#[derive(Clone, Copy, PartialEq, Eq, Default)]
pub enum Place {
    #[default]
    Card,
    Chip,
    Handle,
    Staging,
}

impl Place {
    pub fn of(word: &[u8]) -> Option<Place> {
        match word {
            b"card" => Some(Place::Card),
            b"chip" => Some(Place::Chip),
            b"handle" => Some(Place::Handle),
            b"staging" => Some(Place::Staging),
            _ => None,
        }
    }

    // Card and chip have copies; the other two do not.
    pub fn has_copies(self) -> bool {
        matches!(self, Place::Card | Place::Chip)
    }
}

// What a record forges.
use crate::body::Body;
use crate::numbers::Number;

// A field by its number, a place of it, and the value that it is to have. A number, since it is not known yet whose field it is: an account, a start-up state and
// a window have each their own, and a match for each reads it.
#[derive(Clone, Copy)]
pub struct Forge {
    pub field: u16,
    pub place: u16,
    pub value: u64,
}

impl Forge {
    pub(crate) fn of(body: &mut Body<'_>) -> Option<Forge> {
        Some(Forge {
            field: body.take()?,
            place: body.take()?,
            value: body.take()?,
        })
    }

    // The value, cut to the type of a field that is no array. None: such a field has the place 0 alone.
    pub fn cut<N: Number>(self) -> Option<N> {
        if self.place != 0 {
            return None;
        }
        Some(N::cut(self.value))
    }

    // Sets the place of a field that is an array to the value, cut to its type. None: there is no such place.
    pub fn set<N: Number>(self, array: &mut [N]) -> Option<()> {
        let n = array.get_mut(usize::from(self.place))?;
        *n = N::cut(self.value);
        Some(())
    }
}

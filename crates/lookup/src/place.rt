// The records at the places of a book.
ghost use Rattle.std.specs.Prelude.{◌≡◌};
ghost use Rattle.lookup.specs.Places.{held, record_at, record_before};

// The record at a place; none off the book.
pub fn record_at<R>(book: &[R], place: usize) -> Option<&R>
    ensures answer { held result ≡ record_at book.now place }
{
    book.get(place)
}

// The record directly before a place; none before the first.
pub fn record_before<R>(book: &[R], place: usize) -> Option<&R>
    ensures answer { held result ≡ record_before book.now place }
{
    record_at(book, place.checked_sub(1)?)
}

#[cfg(test)]
mod tests {
    use super::*;

    const fn copied(found: Option<&u32>) -> Option<u32> {
        match found {
            Some(n) => Some(*n),
            None => None,
        }
    }

    #[test]
    fn places(rt: HostRuntime) {
        let book: [u32; 2] = [5, 7];
        assert_eq!(rt; copied(record_at(&book, 1)), Some(7));
        assert_eq!(rt; copied(record_at(&book, 2)), None);
        assert_eq!(rt; copied(record_before(&book, 1)), Some(5));
        assert_eq!(rt; copied(record_before(&book, 0)), None);
    }
}

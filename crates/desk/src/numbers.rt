// The fields of a line, and the numbers that they write.
ghost use Rattle.std.specs.Prelude.{◌≡◌, map, option_map, IfOk};
ghost use Rattle.desk.specs.Lists.{fields_of, numbers_of, list_of};

use crate::pieces::fields_in;
use fields::number::number_of;
use std::alloc::{AllocError, Global};

// The numbers of a line, where there are just so many.
pub fn numbers_of<const N: usize>(line: &[u8]) -> Option<[u32; N]>
    ensures { result ≡ numbers_of N line.now }
{
    let mut numbers = [0; N];
    let mut rest = fields_in(line);
    for number in numbers.iter_mut() {
        *number = number_of(rest.next()?)?;
    }
    rest.next().is_none().then_some(numbers)
}

// The numbers of a line of any length, none where it is empty.
pub fn list_of(heap: Global, line: &[u8]) -> Result<Option<Vec<u32>>, AllocError>
    ensures { IfOk result (λ list. option_map (λ v. v.items) list ≡ list_of line.now) }
{
    let mut numbers = Vec::new(heap);
    if line.is_empty() {
        return Ok(Some(numbers));
    }
    for field in fields_in(line) {
        let Some(number) = number_of(field) else {
            return Ok(None);
        };
        numbers.push(number)?;
    }
    Ok(Some(numbers))
}

#[cfg(test)]
mod tests {
    use super::*;
    use std::process::Abort;
    use std::test::Fail;

    #[test]
    fn so_many_numbers(rt: HostRuntime) {
        assert!(rt; numbers_of::<3>(b"24 8 142") == Some([24, 8, 142]));
        assert!(rt; numbers_of::<1>(b"0") == Some([0]));
        assert!(rt; numbers_of::<2>(b"24 8 142") == None);
        assert!(rt; numbers_of::<4>(b"24 8 142") == None);
        assert!(rt; numbers_of::<3>(b"24 08 142") == None);
        assert!(rt; numbers_of::<3>(b"24 8 142 ") == None);
        assert!(rt; numbers_of::<1>(b"") == None);
        assert!(rt; numbers_of::<0>(b"") == None);
    }

    fn lists(
        rt: &(impl Abort + AllocGlobal),
        line: &[u8],
        expected: Option<&[u32]>,
    ) -> Result<(), Fail> {
        match list_of(rt.alloc(), line)? {
            Some(numbers) => assert!(rt; expected == Some(numbers.as_slice())),
            None => assert!(rt; expected == None),
        }
        Ok(())
    }

    #[test]
    fn any_numbers(rt: HostRuntime) -> Result<(), Fail> {
        lists(&rt, b"", Some(&[]))?;
        lists(&rt, b"7", Some(&[7]))?;
        lists(&rt, b"3 1 0 4294967295", Some(&[3, 1, 0, 4_294_967_295]))?;
        lists(&rt, b" ", None)?;
        lists(&rt, b"3 1 ", None)?;
        lists(&rt, b"3 01", None)
    }
}

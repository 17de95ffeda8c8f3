//! The aliases of a shell, in order of insertion.
#![tactic(auto)]

mod aliases;

pub use aliases::AliasTable;

#[cfg(test)]
mod tests {
    use super::*;
    use ksh_base::Text;
    use std::test::Fail;

    #[test]
    fn aliases_stand_in_order_of_insertion(rt: HostRuntime) -> Result<(), Fail> {
        let alloc = rt.alloc();
        let mut table = AliasTable::preset(alloc)?;
        let integer = Text::of(alloc, b"integer")?;
        let x = Text::of(alloc, b"x")?;
        assert!(rt;
            table
                .find(&integer)
                .is_some_and(|value| value.bytes() == b"typeset -i".as_slice())
        );
        assert!(rt; table.find(&x).is_none() && table.at(7).is_none());
        table.set(x.copy(alloc)?, Text::of(alloc, b"print ")?)?;
        table.set(integer.copy(alloc)?, Text::of(alloc, b"let")?)?;
        let copy = table.fork()?;
        assert!(rt; table.unset(&x) && !table.unset(&x) && table.find(&x).is_none());
        let names: [&[u8]; 8] = [
            b"integer",
            b"nameref",
            b"compound",
            b"functions",
            b"type",
            b"source",
            b"redirect",
            b"x",
        ];
        for (place, want) in names.into_iter().enumerate() {
            assert!(rt; copy.at(place).is_some_and(|row| row.0.bytes() == want));
        }
        assert!(rt; copy.at(8).is_none() && table.at(7).is_none());
        assert!(rt;
            copy.find(&integer)
                .is_some_and(|value| value.bytes() == b"let".as_slice())
        );
        assert!(rt;
            copy.find(&x)
                .is_some_and(|value| value.bytes() == b"print ".as_slice())
        );
        assert!(rt; AliasTable::empty(alloc).at(0).is_none());
        Ok(())
    }
}

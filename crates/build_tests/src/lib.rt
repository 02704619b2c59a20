#![tactic(auto)]

// Tests of built tables.
#[cfg(test)]
mod cleared;

#[cfg(test)]
mod tests {
    use atoms::Sing;
    use build::{Unbuilt, build_table};
    use images::{Fault, Image};
    use layers::{Both, Exists};
    use machine::Machine;
    use std::alloc::{AllocError, Global};
    use std::test::Fail;
    use trees::Shape;

    const SMALL: Shape = Shape {
        leaves: 2,
        inners: 1,
        tracks: 2,
    };

    // Builds with memory enough for 32 states.
    fn states<M: Machine>(
        heap: Global,
        machine: &M,
        most: usize,
    ) -> Result<Result<u8, Unbuilt>, AllocError> {
        let mut codes = vec![in heap; 0u64; 32]?;
        let mut cells = vec![in heap; 0u8; 4200]?;
        let mut classes = vec![in heap; 0u8; 64]?;
        Ok(build_table(
            machine,
            most,
            codes.as_mut_slice(),
            cells.as_mut_slice(),
            classes.as_mut_slice(),
        ))
    }

    #[test]
    fn the_table_of_exactly_one(rt: HostRuntime) -> Result<(), Fail> {
        let machine = Sing::new(
            Shape {
                leaves: 1,
                inners: 1,
                tracks: 1,
            },
            0,
        )?;
        let mut codes = [7u64; 4];
        let mut cells = [7u8; 39];
        let mut classes = [7u8; 8];
        let built = build_table(&machine, 4, &mut codes, &mut cells, &mut classes);
        assert_eq!(rt; built, Ok(3));
        let image = [
            3, 0, 1, 0, 0, 0, 1, 0, 1, 2, 0, 1, 2, 2, 0, 2, 2, 2, 0, 0, 0, 0, 0, 1, 2, 2, 0, 2, 2,
            2, 0, 2, 2, 2, 0, 0, 0, 0, 0,
        ];
        assert!(rt; cells == image);
        Ok(())
    }

    #[test]
    fn codes_and_states(rt: HostRuntime) -> Result<(), Fail> {
        let heap = rt.alloc();
        let both = Both::new(Sing::new(SMALL, 0)?, Sing::new(SMALL, 1)?)?;
        assert_eq!(rt; states(heap, &both, 8)?, Err(Unbuilt::TooMany));
        assert_eq!(rt; states(heap, &both, 9)?, Ok(5));
        assert_eq!(rt;
            states(heap, &Exists::new(Sing::new(SMALL, 0)?, 0)?, 8)?,
            Ok(1)
        );
        assert_eq!(rt; states(heap, &both, 33)?, Err(Unbuilt::Unserved));
        Ok(())
    }

    #[test]
    fn why_no_table_is_built(rt: HostRuntime) -> Result<(), Fail> {
        let heap = rt.alloc();
        let mut text = String::new(heap);
        for unbuilt in [Unbuilt::TooMany, Unbuilt::Unserved] {
            writeln!(text, "{unbuilt}")?;
        }
        assert_eq!(rt;
            text.as_str(),
            "more codes are reached than there is room for\nthe shape, the number of states or the lent memory does not serve\n"
        );
        Ok(())
    }

    #[test]
    fn images_in_memory_from_the_heap(rt: HostRuntime) -> Result<(), Fail> {
        let both = Both::new(Sing::new(SMALL, 0)?, Sing::new(SMALL, 1)?)?;
        for (most, due) in [
            (8, Err(Unbuilt::TooMany)),
            (9, Ok(5)),
            (33, Err(Unbuilt::Unserved)),
        ] {
            let built = match Image::build(rt.alloc(), &both, most) {
                Ok(image) => Ok(image.states),
                Err(Fault::Unbuilt(why)) => Err(why),
                Err(_) => return Err(Fail::new("memory for an image")),
            };
            assert_eq!(rt; built, due);
        }
        Ok(())
    }
}

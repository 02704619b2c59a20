#![tactic(auto)]

// Tests of the reading at its edges.
#[cfg(test)]
mod tests {
    use std::alloc::{AllocError, Global};
    use std::test::Fail;
    use trees::{Root, Shape, split};

    // The number and place of the refusal that a listing is due.
    fn verdict(
        heap: Global,
        shape: Shape,
        listing: &[u8],
        places: usize,
    ) -> Result<Option<(u8, usize)>, AllocError> {
        let mut stack = vec![in heap; 7u16; places]?;
        let refused = split(shape, listing, &mut stack).err();
        Ok(refused.map(|refusal| (refusal.reason.number(), refusal.place)))
    }

    // `leaves` leaves, an inner node after each but the first.
    fn left_comb(heap: Global, leaves: usize) -> Result<Vec<u8>, AllocError> {
        let mut bytes = Vec::new(heap);
        for k in 0..leaves {
            bytes.extend_from_slice(&[0, 0])?;
            if k > 0 {
                bytes.extend_from_slice(&[2, 0])?;
            }
        }
        Ok(bytes)
    }

    // All `leaves` leaves first, then as many inner nodes as join them.
    fn right_comb(heap: Global, leaves: usize) -> Result<Vec<u8>, AllocError> {
        let mut bytes = Vec::new(heap);
        for _ in 0..leaves {
            bytes.extend_from_slice(&[1, 0])?;
        }
        for _ in 1..leaves {
            bytes.extend_from_slice(&[2, 0])?;
        }
        Ok(bytes)
    }

    const SMALL: Shape = Shape {
        leaves: 2,
        inners: 1,
        tracks: 2,
    };

    const WIDE: Shape = Shape {
        leaves: 2,
        inners: 2,
        tracks: 6,
    };

    #[test]
    fn labels_and_marks_at_their_limits(rt: HostRuntime) -> Result<(), Fail> {
        let heap = rt.alloc();
        for (listing, due) in [
            ([1, 63], None),
            ([1, 64], Some((15, 0))),
            ([2, 0], Some((16, 0))),
            ([3, 0], Some((16, 0))),
            ([4, 0], Some((14, 0))),
        ] {
            assert_eq!(rt; verdict(heap, WIDE, &listing, 1)?, due);
        }
        for (listing, due) in [
            ([1, 3], None),
            ([1, 4], Some((15, 0))),
            ([3, 4], Some((14, 0))),
        ] {
            assert_eq!(rt; verdict(heap, SMALL, &listing, 1)?, due);
        }
        assert_eq!(rt; verdict(heap, WIDE, &[0, 0, 1, 63, 3, 63], 2)?, None);
        assert_eq!(rt; verdict(heap, SMALL, &[0, 0, 2, 0], 0)?, Some((17, 0)));
        Ok(())
    }

    #[test]
    fn the_longest_listings(rt: HostRuntime) -> Result<(), Fail> {
        let heap = rt.alloc();
        let mut bytes = left_comb(heap, 2048)?;
        assert_eq!(rt; bytes.len(), 8190);
        assert_eq!(rt; verdict(heap, SMALL, &bytes, 2)?, None);
        bytes.extend_from_slice(&[0, 0])?;
        assert_eq!(rt; verdict(heap, SMALL, &bytes, 2)?, Some((18, 4096)));
        bytes.extend_from_slice(&[9, 9])?;
        assert_eq!(rt; verdict(heap, SMALL, &bytes, 2)?, Some((13, 0)));
        Ok(())
    }

    #[test]
    fn a_stack_exactly_full_and_one_short(rt: HostRuntime) -> Result<(), Fail> {
        let heap = rt.alloc();
        let bytes = right_comb(heap, 2048)?;
        assert_eq!(rt; verdict(heap, SMALL, &bytes, 2048)?, None);
        assert_eq!(rt; verdict(heap, SMALL, &bytes, 2047)?, Some((17, 2047)));
        assert_eq!(rt;
            verdict(heap, SMALL, left_comb(heap, 3)?.as_slice(), 1)?,
            Some((17, 1))
        );
        Ok(())
    }

    #[test]
    fn parts_of_a_root(rt: HostRuntime) {
        let root = split(SMALL, &[0, 1, 1, 0, 1, 2, 2, 1, 2, 3], &mut [0; 3]);
        let parts = Root::Inner {
            label: 2,
            marks: 3,
            left: &[0, 1],
            right: &[1, 0, 1, 2, 2, 1],
        };
        assert_eq!(rt; root, Ok(parts));
    }

    #[test]
    fn shapes_at_their_limits(rt: HostRuntime) {
        assert!(rt; Shape::new(8, 4, 6).is_some());
        assert!(rt; Shape::new(1, 1, 1).is_some());
        for (leaves, inners, tracks) in [
            (0, 1, 1),
            (9, 1, 1),
            (1, 0, 1),
            (1, 5, 1),
            (1, 1, 0),
            (1, 1, 7),
            (257, 1, 1),
        ] {
            assert_eq!(rt; Shape::new(leaves, inners, tracks), None);
        }
    }
}

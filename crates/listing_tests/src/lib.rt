#![tactic(auto)]

// Tests of listings.
#[cfg(test)]
mod tests {
    use listing::{Unwritten, list_table};
    use trees::Shape;

    const SHAPE: Shape = Shape {
        leaves: 1,
        inners: 1,
        tracks: 1,
    };

    // The table of "exactly one node is in track 0", with room for four states.
    const IMAGE: [u8; 39] = [
        3, 0, 1, 0, 0, 0, 1, 0, 1, 2, 0, 1, 2, 2, 0, 2, 2, 2, 0, 0, 0, 0, 0, 1, 2, 2, 0, 2, 2, 2,
        0, 2, 2, 2, 0, 0, 0, 0, 0,
    ];

    const TEXT: &[u8; 108] =
        b"T,1,1,1,3\nA,0,1,0\nL,0,1\nI,1,0,0,0,1,2\nI,1,0,1,1,2,2\nI,1,0,2,2,2,2\nI,1,1,0,1,2,2\nI,1,1,1,2,2,2\nI,1,1,2,2,2,2\n";

    #[test]
    fn the_listing_of_exactly_one(rt: HostRuntime) {
        let mut buffer = [7u8; 126];
        let answer = list_table(SHAPE, 4, &IMAGE, &mut buffer);
        assert_eq!(rt; answer, Ok(108));
        assert!(rt; buffer.starts_with(TEXT));
        assert!(rt; buffer.ends_with(&[7u8; 18]));
    }

    #[test]
    fn a_buffer_as_long_as_the_text(rt: HostRuntime) {
        let mut buffer = [7u8; 108];
        let answer = list_table(SHAPE, 4, &IMAGE, &mut buffer);
        assert_eq!(rt; answer, Ok(108));
        assert!(rt; buffer == *TEXT);
    }

    #[test]
    fn a_buffer_one_byte_short(rt: HostRuntime) {
        let mut buffer = [7u8; 107];
        let answer = list_table(SHAPE, 4, &IMAGE, &mut buffer);
        assert_eq!(rt; answer, Err(Unwritten::Short(108)));
        assert!(rt; buffer == [7u8; 107]);
    }

    #[test]
    fn what_does_not_serve(rt: HostRuntime) {
        let mut buffer = [7u8; 126];
        let answer = list_table(SHAPE, 5, &IMAGE, &mut buffer);
        assert_eq!(rt; answer, Err(Unwritten::Unserved));
        let answer = list_table(SHAPE, 33, &[0u8; 4000], &mut buffer);
        assert_eq!(rt; answer, Err(Unwritten::Unserved));
        assert!(rt; buffer == [7u8; 126]);
    }

    // Twelve states, the last of them final; leaf cells 10 and 11; of the inner cells the first four are 9, 11, 12 and 255,
    // the last two of which are no states.
    #[test]
    fn numbers_of_two_digits(rt: HostRuntime) {
        let mut image = [0u8; 303];
        image[0] = 12;
        image[12..19].copy_from_slice(&[1, 10, 11, 9, 11, 12, 255]);
        let mut buffer = [7u8; 900];
        let answer = list_table(SHAPE, 12, &image, &mut buffer);
        assert_eq!(rt; answer, Ok(818));
        assert!(rt;
            buffer.starts_with(
                b"T,1,1,1,12\nA,0,0,0,0,0,0,0,0,0,0,0,1\nL,10,11\nI,1,0,0,9,11,0,0,0,0,0,0,0,0,0,0\nI,1,0,1,0,0,0,0,0,0,0,0,0,0,0,0\n",
            )
        );
        assert!(rt; buffer[778..818].starts_with(b",0,0,0\nI,1,1,11,0,0,0,0,0,0,0,0,0,0,0,0\n"));
    }
}

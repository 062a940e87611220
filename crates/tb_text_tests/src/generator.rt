// A generated galley that has each kind of item, as canonical text, made by another program.
use std::test::Fail;
use tb_galley::print;
use tb_generator::generate;

const ITEMS: &[u8] =
    b"box b1 458752 131072\nglue 196608 plus 65536 minus 0\nbox b3 458752 131072\nglue 196608 plus 65536 minus 0\nbox b5 458752 131072\nglue 196608 plus 65536 minus 0\nbox b7 458752 131072\nglue 196608 plus 65536 minus 0\nbox b9 458752 131072\nglue 196608 plus 65536 minus 0\nbox b11 458752 131072\nglue 196608 plus 65536 minus 0\nbox b13 458752 131072\nglue 196608 plus 65536 minus 0\nbox b15 458752 131072\nglue 196608 plus 65536 minus 0\nbox b17 458752 131072\nfloat x18 1 single tbp 3538944 par\nbox b19 458752 131072\nglue 196608 plus 65536 minus 0\nbox b21 458752 131072\nglue 196608 plus 65536 minus 0\nbox b23 458752 131072\nfloat x24 2 single htp 2752512 vert\nbox b25 458752 131072\nfoot\nbox f26 458752 131072\nendfoot\nbox b27 458752 131072\nglue 196608 plus 65536 minus 0\nbox b29 458752 131072\nglue 196608 plus 65536 minus 0\nbox b31 458752 131072\nfloat x32 1 single tbp 6422528 par\nbox b33 458752 131072\nglue 196608 plus 65536 minus 0\nbox b35 458752 131072\nglue 196608 plus 65536 minus 0\nbox b37 458752 131072\nglue 196608 plus 65536 minus 0\nbox b39 458752 131072\nfloat x40 2 single htp 2621440 vert\nend\n";

#[test]
fn forty_items(rt: HostRuntime) -> Result<(), Fail> {
    let alloc = rt.alloc();
    let galley = generate(alloc, 40)?;
    let text = print(alloc, &galley)?;
    assert!(rt; text.as_slice().ends_with(ITEMS));
    assert_eq!(rt; galley.items.len(), 40);
    assert_eq!(rt; galley.end_line, 41);
    Ok(())
}

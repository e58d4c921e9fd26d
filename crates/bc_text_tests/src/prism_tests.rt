//! How many sections a text has or its first fault, up to the limit of sections, and what each section has; then the
//! text of layers, through a buffer of three bytes and with a write that fails.
ghost use Rattle.std.specs.Prelude.{All, IfOk, OnOk};
ghost use Rattle.bc_prism.specs.Prisms.{IsLayer};

use bc_io::MemSink;
use bc_num::{Box2, Box3, Disc2, List, V2};
use bc_prism::*;
use bc_tree::{Leaf, Tree, tree_of};
use std::alloc::Global;
use std::test::Fail;

// How many sections a text has, or its fault.
fn counted(alloc: Global, text: &str) -> Result<usize, LayerFault> {
    if text.len() > 1_048_576 {
        return Err(LayerFault::Memory);
    }
    read_layers(alloc, text.as_bytes()).map(|sections| sections.len())
}

#[test]
fn sections_and_faults(rt: HostRuntime) -> Result<(), Fail> {
    let alloc = rt.alloc();
    let rows: [(&str, Result<usize, LayerFault>); 13] = [
        ("", Ok(0)),
        (" \n# a comment alone\n", Ok(0)),
        ("LAYER 0 3\nG00 X5 Y0\nG03 X5 Y0 I-5 J0\n", Ok(1)),
        (
            "G01 LAYER\nLAYER 0 1",
            Err(LayerFault::BadLayer { line: 1 }),
        ),
        ("LAYER 0 1\nLAYERS 1 2\nG01 LAYER 1 2\n", Ok(1)),
        ("LAYER -1023 3.0#to\nLAYER +3 1023", Ok(2)),
        ("LAYER 3 3\n", Err(LayerFault::BadLayer { line: 1 })),
        ("LAYER 0 1 2\n", Err(LayerFault::BadLayer { line: 1 })),
        (
            "LAYER 0 1\n\nLAYER 1 1024",
            Err(LayerFault::BadLayer { line: 3 }),
        ),
        // heights that touch, and heights that overlap: the least second section, and then the least first one
        ("LAYER 0 3\nLAYER 3 5\n", Ok(2)),
        (
            "LAYER 0 3\nLAYER 2 5\n",
            Err(LayerFault::Overlap {
                first: 0,
                second: 1,
            }),
        ),
        (
            "LAYER 5 9\nLAYER 0 2\nLAYER -1 6\nLAYER 5 9\n",
            Err(LayerFault::Overlap {
                first: 0,
                second: 2,
            }),
        ),
        // a line at fault comes first, also behind sections that overlap
        (
            "LAYER 0 3\nLAYER 0 3\nLAYER",
            Err(LayerFault::BadLayer { line: 3 }),
        ),
    ];
    for (text, want) in rows {
        assert_eq!(rt; counted(alloc, text), want);
    }
    Ok(())
}

#[test]
fn sixty_four_sections(rt: HostRuntime) -> Result<(), Fail> {
    let alloc = rt.alloc();
    let mut text = String::new(alloc);
    for k in 0..64u32 {
        text.push_str(&format!(in alloc; "LAYER {} {}\n", k, k + 1)?)?;
    }
    assert_eq!(rt; counted(alloc, &text), Ok(64));
    text.push_str("LAYER 64 65\n")?;
    assert_eq!(rt;
        counted(alloc, &text),
        Err(LayerFault::TooManyLayers { line: 65 })
    );
    Ok(())
}

#[test]
fn texts_of_sections(rt: HostRuntime) -> Result<(), Fail> {
    let alloc = rt.alloc();
    let sections = read_layers(alloc, b"\nLAYER 0 3\nG00 X5 Y0\n\nLAYER 3 5 # top\nG01 X1").map_err(
        |_| "fault",
    )?;
    assert_eq!(rt; sections.len(), 2);
    if let [one, two] = sections.as_slice() {
        assert_eq!(rt; one.text, b"G00 X5 Y0\n\n".as_slice());
        assert_eq!(rt; (one.z0, one.z1), (0, 3));
        assert_eq!(rt; two.text, b"G01 X1".as_slice());
        assert_eq!(rt; (two.z0, two.z1), (3, 5));
    }
    Ok(())
}

const NOTHING: &str = "\
// bcsg 2 prism
// box -6 -6 -3 6 6 6
union() {
}
";

const TWO: &str = "\
// bcsg 2 prism
// box -6 -6 -3 6 6 6
union() {
  translate([0,0,-2]) linear_extrude(height=4)
    translate([0,0,0]) circle(r=sqrt(25));
  translate([0,0,2]) linear_extrude(height=3)
    union() {
    }
}
";

const BOUNDS: Box3 = Box3 {
    x0: -6,
    y0: -6,
    z0: -3,
    x1: 6,
    y1: 6,
    z1: 6,
};

fn disc_layer() -> Layer
    ensures { IsLayer result }
{
    Layer {
        z0: -2,
        z1: 2,
        tree: Tree::Leaf(Leaf::Disc(Disc2 {
            c: V2 { x: 0, y: 0 },
            r2: 25,
        })),
    }
}

fn empty_layer(alloc: Global) -> Result<Layer, &'static str>
    ensures { IfOk result IsLayer }
{
    let tile = Leaf::Tile(Box2 {
        x0: -1,
        y0: -1,
        x1: 1,
        y1: 1,
    });
    let tree = tree_of(alloc, tile, &[], &List::new(alloc)).map_err(|_| "memory")?;
    Ok(Layer { z0: 2, z1: 5, tree })
}

fn add(layers: &mut List<Layer>, layer: Layer) -> Result<(), &'static str>
    requires layers { All IsLayer layers.old }
    requires layer { IsLayer layer }
    ensures { OnOk result (All IsLayer layers.new) }
{
    match layers.push(layer) {
        Ok(()) => Ok(()),
        Err(_) => Err("memory"),
    }
}

fn two_layers(alloc: Global) -> Result<List<Layer>, &'static str>
    ensures { IfOk result (λ ls. All IsLayer ls) }
{
    let mut layers = List::new(alloc);
    add(&mut layers, disc_layer())?;
    add(&mut layers, empty_layer(alloc)?)?;
    Ok(layers)
}

#[test]
fn layers_through_a_small_buffer(rt: HostRuntime) -> Result<(), Fail> {
    let alloc = rt.alloc();
    let mut buf = [0u8; 3];
    let mut out = MemSink::new(alloc, 4096, 4096, Vec::new(alloc)).map_err(|_| "memory")?;
    assert!(rt; prisms(&BOUNDS, &List::new(alloc), &mut buf, &mut out).is_ok());
    assert_eq!(rt; out.held(), NOTHING.as_bytes());
    let layers = two_layers(alloc)?;
    let mut out = MemSink::new(alloc, 4096, 4096, Vec::new(alloc)).map_err(|_| "memory")?;
    assert!(rt; prisms(&BOUNDS, &layers, &mut buf, &mut out).is_ok());
    assert_eq!(rt; out.held(), TWO.as_bytes());
    // the fifth write fails
    let mut fails = Vec::new(alloc);
    fails.push(5u64)?;
    let mut out = MemSink::new(alloc, 4096, 4096, fails).map_err(|_| "memory")?;
    assert!(rt; prisms(&BOUNDS, &layers, &mut buf, &mut out).is_err());
    assert_eq!(rt; out.held(), b"// bcsg 2 pr".as_slice());
    Ok(())
}

//! The text of layers.
ghost use Rattle.std.specs.Prelude.{◌≡◌, ◌<◌, ◌≤◌, ◌++◌, length, All};
ghost use Rattle.bc_algebra.specs.Within.{IsWithin};
ghost use Rattle.bc_io.specs.Causes.{HasCause};
ghost use Rattle.bc_io.specs.Growing.{GrewBy};
ghost use Rattle.bc_io.specs.Pieces.{Puts};
ghost use Rattle.bc_prism.specs.Layers.{a_layer, layers_of};
ghost use Rattle.bc_prism.specs.Prisms.{IsLayer, height_line, layer_text, layers_text, prism_layout};

use crate::Layer;
use bc_io::{Failed, Pen, Sink};
use bc_num::{Box3, List};
use bc_text::{put_solid_box, put_tree_to};

/// Writes layers with their box, through a buffer of at least one byte: two lines of comments, and in one union for each layer
/// its line and its tree. Heights are from -1023 to 1023, the lower one first; each tree is one of the plane with at most 64
/// operators nested in it. No memory is taken.
///
/// # Errors
/// `Failed` where a write failed: the sink's faults rose, and it has taken a front of the text.
pub fn prisms<K: Sink>(
    bounds: &Box3,
    layers: &List<Layer>,
    buf: &mut [u8],
    out: &mut K,
) -> Result<(), Failed>
    requires layers { All IsLayer layers.now }
    requires room { 0 < length buf.old }
    ensures text { Puts (K.held out.old) (K.held out.new) result (prism_layout bounds.now (layers_of layers.now)) }
    ensures cause { HasCause (K.faults out.old) (K.faults out.new) result }
{
    let mut pen = Pen::new(buf, out);
    put_prism(&mut pen, bounds, layers.as_slice());
    pen.finish()
}

fn put_prism<K: Sink>(pen: &mut Pen<K>, bounds: &Box3, layers: &[Layer])
    requires { All IsLayer layers.now }
    ensures { GrewBy K.held K.faults pen.old pen.new (prism_layout bounds.now (layers_of layers.now)) }
{
    pen.put(b"// bcsg 2 prism\n");
    put_solid_box(pen, bounds);
    pen.put(b"\n");
    pen.put(b"union() {\n");
    put_layers(pen, layers);
    pen.put(b"}\n");
}

fn put_layers<K: Sink>(pen: &mut Pen<K>, layers: &[Layer])
    requires { All IsLayer layers.now }
    ensures { GrewBy K.held K.faults pen.old pen.new (layers_text (layers_of layers.now)) }
{
    for layer in layers {
        put_layer(pen, layer);
    }
}

fn put_layer<K: Sink>(pen: &mut Pen<K>, layer: &Layer)
    requires { IsLayer layer.now }
    ensures { GrewBy K.held K.faults pen.old pen.new (layer_text (a_layer layer.now)) }
{
    put_heights(pen, layer.z0, layer.z1);
    put_tree_to(pen, &layer.tree, 2);
}

// The line before a layer's tree.
fn put_heights<K: Sink>(pen: &mut Pen<K>, z0: i64, z1: i64)
    requires low { IsWithin 1023 z0 }
    requires high { IsWithin 1023 z1 }
    ensures { GrewBy K.held K.faults pen.old pen.new (height_line z0 z1) }
{
    pen.put(b"  translate([0,0,");
    pen.put_number(z0);
    pen.put_next(b"]) linear_extrude(height=", z1 - z0);
    pen.put(b")\n");
}

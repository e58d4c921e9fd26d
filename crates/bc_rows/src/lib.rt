//! Rows of the program: runs of its one call over memory, with what comes out of them. There is nothing else here.
#![tactic(auto)]

#[cfg(test)]
mod audit_rows;
#[cfg(test)]
mod carve_rows;
#[cfg(test)]
mod case;
#[cfg(test)]
mod combine_rows;
#[cfg(test)]
mod contour_rows;
#[cfg(test)]
mod device_rows;
#[cfg(test)]
mod factor_rows;
#[cfg(test)]
mod mesh_rows;
#[cfg(test)]
mod prism_rows;
#[cfg(test)]
mod size_rows;
#[cfg(test)]
mod tree_rows;

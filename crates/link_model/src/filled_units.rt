//! Which units initialise only objects that they define: definitions alone.
